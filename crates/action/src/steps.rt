//! The steps of an advance.
mod methods;

ghost use Rattle.job.specs.Actions.{advance};
ghost use Rattle.job.specs.Orderable.{Orderable};

/// How far an advance moves the paper: 1 to 255 steps.
#[derive(Clone, Copy)]
pub struct Steps {
    count: u8,
    ghost ok: { Orderable (advance count) },
}
