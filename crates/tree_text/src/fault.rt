//! Why a text was not printed whole.
use thiserror::Error;

/// Why a text was not printed whole.
#[derive(Debug, Drop, Error)]
pub enum PrintFault {
    /// The sink failed. A front of the text is printed.
    #[error("a write failed")]
    WriteFault,
    /// There was no memory. First lines of the text are printed, each whole.
    #[error("out of memory")]
    Memory,
}
