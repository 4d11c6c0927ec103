//! The laws of jobs and normal texts: each function's contract names one.
ghost use Rattle.job.specs.BarLaws.{BarCodesAreJudged};
ghost use Rattle.job.specs.CommandLaws.{Cutting, CancellingOrdersNothing, DeletingTakesBack, FeedsAreLineFeeds, LineFeeds, OneByteOrders, RefusedCommandsArePassedOver, RepeatedSpaces, Typing};
ghost use Rattle.job.specs.Invariants.{AlwaysHolds};
ghost use Rattle.job.specs.Laws.{Canonical, InPieces, OnlyOrderable, OrderableIsWhatStreamsOrder, ReadBack, ReadBeforeOthers, Settled};
ghost use Rattle.job.specs.StopLaws.{LinesAreCounted, Tabulation};
ghost use Rattle.job.specs.Tickets.{TicketsAreAsListed};

/// The listed tickets have the texts and refusals that stand beside them.
#[tactic(auto, using(crate::proofs::Tried::tickets_tried))]
pub fn tickets_are_as_listed()
    ensures { TicketsAreAsListed }
{}

/// Two streams have the same normal text exactly when they order the same job.
#[tactic(auto, using(crate::proofs::Texts::normal_texts_canonical))]
pub fn normal_texts_are_canonical()
    ensures { Canonical }
{}

/// The text of a job that a stream can order orders that very job, refuses nothing, and leaves the interpreter as new but for its line number.
#[tactic(auto, using(crate::proofs::Back::read_back))]
pub fn jobs_are_read_back()
    ensures { ReadBack }
{}

/// An action's text before any other bytes orders the action, and those bytes then do what they do by themselves.
#[tactic(auto, using(crate::proofs::Back::read_before_others))]
pub fn texts_are_read_before_others()
    ensures { ReadBeforeOthers }
{}

/// A normal text is its own normal text, orders the same job, and consists of bytes.
#[tactic(auto, using(crate::proofs::Texts::settled))]
pub fn normal_texts_are_settled()
    ensures { Settled }
{}

/// Every action of every stream's job can be ordered.
#[tactic(auto, using(crate::proofs::Reach::only_orderable))]
pub fn jobs_are_orderable()
    ensures { OnlyOrderable }
{}

/// An action can be ordered exactly if a stream orders it, and then its text does.
#[tactic(auto, using(crate::proofs::Texts::orderable_is_ordered))]
pub fn orderable_is_what_streams_order()
    ensures { OrderableIsWhatStreamsOrder }
{}

/// A stream read in pieces orders and refuses what it does in one, and leaves the same state, for every cutting.
#[tactic(auto, using(crate::proofs::Runs::in_pieces))]
pub fn pieces_make_no_difference()
    ensures { InPieces }
{}

/// Margins, stops, line number, open row and unfinished command always stay within their bounds.
#[tactic(auto, using(crate::proofs::Reach::always_holds))]
pub fn settings_always_hold()
    ensures { AlwaysHolds }
{}

/// Line feeds order the closed row, if a column is not blank, and then as many equal advances, unless the spacing is 0.
#[tactic(auto, using(crate::proofs::Feeds::line_feeds))]
pub fn line_feeds_order_rows_and_advances()
    ensures { LineFeeds }
{}

/// VT, FF and repeated line feeds do what as many line feeds do.
pub fn feeds_are_line_feeds()
    ensures { FeedsAreLineFeeds }
{}

/// Line feeds count the lines of the page round; VT leads to the next stop, FF to line 1.
pub fn lines_are_counted()
    ensures { LinesAreCounted }
{}

/// HT moves to the next stop within the right margin, or does nothing.
#[tactic(auto, using(crate::proofs::Stops::tabulation))]
pub fn tabulation_leads_to_stops()
    ensures { Tabulation }
{}

/// A character is put at the position, behind a line feed if it would pass the right margin.
#[tactic(auto, using(crate::proofs::Typed::typing))]
pub fn characters_wrap()
    ensures { Typing }
{}

/// Repeated spaces do what as many spaces without underline do.
#[tactic(auto, using(crate::proofs::Typed::repeated_spaces))]
pub fn repeated_spaces_are_spaces()
    ensures { RepeatedSpaces }
{}

/// One byte orders at most one row, then equal advances, then at most one other action.
#[tactic(auto, using(crate::proofs::Shapes::one_byte_orders))]
pub fn one_byte_orders_in_order()
    ensures { OneByteOrders }
{}

/// A refused command leaves printer and job as they were, and is reported at the place of its first byte.
pub fn refused_commands_are_passed_over()
    ensures { RefusedCommandsArePassedOver }
{}

/// Cancelling a row orders nothing and leaves an empty row.
pub fn cancelling_orders_nothing()
    ensures { CancellingOrdersNothing }
{}

/// DEL takes back the character before the position, steps over an unset column, and stops at the left margin.
#[tactic(auto, using(crate::proofs::Deleted::deleting_takes_back))]
pub fn deleting_takes_back()
    ensures { DeletingTakesBack }
{}

/// A cut follows the closed row and the line feeds before a cut; with the cutter off, it does nothing.
#[tactic(auto, using(crate::proofs::Judging::cutting))]
pub fn cuts_follow_rows_and_feeds()
    ensures { Cutting }
{}

/// A bar code is answered by its first fault, kind, character or length, or else ordered behind the closed row.
#[tactic(auto, using(crate::proofs::Judging::bar_codes_are_judged))]
pub fn bar_codes_are_judged()
    ensures { BarCodesAreJudged }
{}
