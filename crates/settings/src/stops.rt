//! Lists of stops.
ghost use Rattle.std.specs.Prelude.{◌≡◌, ◌<◌, true, false, [], ◌∷◌, MatchOption, MatchResult};
ghost use Rattle.reading.specs.Tests.{between, every};
ghost use Rattle.reading.specs.declared.Refusal.TheVariants.{OutOfRange};
ghost use Rattle.job.specs.Changes.{rising};
ghost use Rattle.job.specs.Row.{next_beyond};
ghost use Rattle.short.specs.Short.{listed};

use reading::Refusal;
use short::Short;
use std::iter;

/// At most N stops that rise, each from 1 to MOST.
// No Model: its view would forget the bytes behind the last stop, and such a type cannot be Copy.
#[derive(Clone, Copy)]
pub(crate) struct Stops<const N: usize, const MOST: u8> {
    places: Short<N>,
    ghost rise: { rising 0 (listed places) ≡ true },
    ghost reach: { every (between 1 MOST) (listed places) ≡ true },
}

/// Columns, counted from the left margin.
pub(crate) type HorizontalStops = Stops<8, 47>;

/// Lines of the page.
pub(crate) type VerticalStops = Stops<16, 127>;

impl<const N: usize, const MOST: u8> Stops<N, MOST> {
    ghost use Rattle.settings.specs.Stops.{stops_in_range};

    /// No stops.
    pub(crate) fn none() -> Stops<N, MOST>
        ensures { listed result.places ≡ [] }
    {
        Stops {
            places: Short::new(),
        }
    }

    /// These stops, if they rise and none lies out of reach.
    pub(crate) fn new(places: Short<N>) -> Result<Stops<N, MOST>, Refusal>
        ensures { MatchResult result (λ stops. (stops_in_range MOST (listed places.entry) ≡ true) × (listed stops.places ≡ listed places.entry)) (λ why. (stops_in_range MOST (listed places.entry) ≡ false) × (why ≡ OutOfRange)) }
    {
        if rise(places.as_slice()) && reach(places.as_slice(), MOST) {
            Ok(Stops { places })
        } else {
            Err(Refusal::OutOfRange)
        }
    }

    /// The stops, from the first to the last.
    pub(crate) fn as_slice(&self) -> &[u8]
        ensures { result.now ≡ listed self.now.places }
    {
        self.places.as_slice()
    }

    /// Where the first stop lies that, counted from an origin, is beyond a limit, if there is one.
    pub(crate) fn first_beyond(&self, origin: u8, limit: u8) -> Option<u16>
        ensures { MatchOption result (next_beyond origin limit (listed self.now.places) ≡ 0) (λ place. (place ≡ next_beyond origin limit (listed self.now.places)) × (limit < place)) }
    {
        self.as_slice()
            .iter()
            .map(|stop| u16::from(origin) + u16::from(*stop))
            .find(|place| u16::from(limit) < *place)
    }
}

impl HorizontalStops {
    /// The stops until others are programmed.
    pub(crate) fn by_default() -> HorizontalStops
        ensures { listed result.places ≡ 8 ∷ 16 ∷ 24 ∷ 32 ∷ 40 ∷ [] }
    {
        Stops {
            places: Short::leading(&[8, 16, 24, 32, 40]),
        }
    }
}

/// Whether each is above the one before, and the first above 0.
fn rise(stops: &[u8]) -> bool
    ensures { result ≡ rising 0 stops.now }
{
    iter::once(0)
        .chain(stops.iter().copied())
        .zip(stops)
        .all(|(last, stop)| last < *stop)
}

/// Whether each lies from 1 to a limit.
fn reach(stops: &[u8], most: u8) -> bool
    ensures { result ≡ every (between 1 most) stops.now }
{
    stops.iter().all(|stop| (1..=most).contains(stop))
}
