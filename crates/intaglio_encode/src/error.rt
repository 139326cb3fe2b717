//! Errors of a run whose arguments name a kind.
ghost use Rattle.std.specs.Prelude.{◌≡◌};
ghost use Rattle.intaglio_encode.specs.declared.error.RunError.TheVariants.{Encode};

pub use intaglio_lines::tool_error::ToolError;
use thiserror::Error;

/// Why a run whose arguments name a kind failed.
#[derive(Debug, Drop, Error)]
pub enum RunError {
    /// There is no hash builder, since the runtime gave no random seed.
    #[error("no random seed")]
    NoSeed,
    /// The input wasn't encoded.
    #[error(transparent)]
    Encode(ToolError),
}

impl From<ToolError> for RunError {
    ghost from_gives = { λ fault error. error ≡ Encode fault };

    fn from(fault: ToolError) -> RunError {
        RunError::Encode(fault)
    }
}
