//! Why cases can't be run.

use sig_base::Fault;
use std::alloc::{AllocError, AllocFailed, Global};

/// Why a case, or a file of cases, isn't run.
#[derive(Debug, Drop)]
pub enum Trouble {
    /// Memory is missing.
    Memory,
    /// It isn't written as cases are; the text says why.
    Said(String),
}

impl Trouble {
    /// What is wrong.
    pub fn said(alloc: Global, what: &str) -> Trouble {
        match String::from_str(alloc, what) {
            Ok(text) => Trouble::Said(text),
            Err(_) => Trouble::Memory,
        }
    }

    /// What is wrong, and the words that are.
    pub fn of(alloc: Global, what: &str, words: &str) -> Trouble {
        match format!(in alloc; "{what}: {words}") {
            Ok(text) => Trouble::Said(text),
            Err(_) => Trouble::Memory,
        }
    }
}

impl From<AllocError> for Trouble {
    fn from(_error: AllocError) -> Trouble {
        Trouble::Memory
    }
}

impl<T: Drop> From<AllocFailed<T>> for Trouble {
    fn from(_error: AllocFailed<T>) -> Trouble {
        Trouble::Memory
    }
}

impl From<Fault> for Trouble {
    fn from(_fault: Fault) -> Trouble {
        Trouble::Memory
    }
}
