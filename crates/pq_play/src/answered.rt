//! Whether a call was answered, or an allocation failed.
ghost use Rattle.std.specs.Prelude.{◌≡◌, true};
ghost use Rattle.pq_play.specs.Steps.{OpenAnswered, AcceptAnswered, EditAnswered, LookAnswered};

use pq_core::{
    AcceptFault, AcceptRefused, ClientId, EditFault, EditRefused, LookFault, Move, Number,
    OpenFault, OpenRefused,
};
use pq_inputs::{InputFault, Revision};

/// Whether a client was opened or refused for another reason than memory.
pub(crate) fn open_answered<O>(answer: &Result<ClientId, OpenRefused<O>>) -> bool
    ensures { result ≡ true → OpenAnswered answer.now }
{
    match answer {
        Ok(_) => true,
        Err(refused) => match refused.fault {
            OpenFault::TooManyClients => true,
            OpenFault::Memory => false,
        },
    }
}

/// Whether a request was accepted or refused for another reason than memory.
pub(crate) fn accept_answered<K>(answer: &Result<Number, AcceptRefused<K>>) -> bool
    ensures { result ≡ true → AcceptAnswered answer.now }
{
    match answer {
        Ok(_) => true,
        Err(refused) => match refused.fault {
            AcceptFault::NoClient | AcceptFault::Closed | AcceptFault::WindowFull => true,
            AcceptFault::Memory => false,
        },
    }
}

/// Whether an edit was accepted or refused for another reason than memory.
pub(crate) fn edit_answered(answer: &Result<Revision, EditRefused>) -> bool
    ensures { result ≡ true → EditAnswered answer.now }
{
    match answer {
        Ok(_) => true,
        Err(refused) => match refused.fault {
            EditFault::NoClient | EditFault::Closed | EditFault::BadRange => true,
            EditFault::Input(InputFault::Memory) => false,
            EditFault::Input(_) => true,
        },
    }
}

/// Whether a run took a step or does not exist.
pub(crate) fn look_answered<W>(answer: &Result<Move<W>, LookFault>) -> bool
    ensures { result ≡ true → LookAnswered answer.now }
{
    match answer {
        Ok(_) => true,
        Err(LookFault::NoRun) => true,
        Err(LookFault::Memory) => false,
    }
}
