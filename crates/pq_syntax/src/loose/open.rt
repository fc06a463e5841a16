//! The open braces before a token, and what holds the statements within the innermost.
ghost use Rattle.std.specs.Prelude.{◌≡◌, ◌≤◌, [], OnOk, true};
ghost use Rattle.pq_syntax.specs.Loose.{at_file_level, opened, within};
ghost use Rattle.pq_syntax.specs.aux.Loosely.{deepens, innermost, turned};

use crate::Memory;
use crate::loose::sights::{Brace, Sight};
use std::alloc::Global;
use std::marker::Model;

/// What holds a statement.
#[derive(Clone, Copy)]
pub(crate) struct Holder {
    /// The innermost open brace, `None` at the file's level.
    pub(crate) brace: Option<Brace>,
    /// The number of statements that contain what it holds.
    pub(crate) depth: u8,
}

/// The open braces, each as the holder of what it contains. Contracts see the list of them, the
/// innermost first.
#[derive(Drop)]
pub(crate) struct OpenBraces {
    holders: Vec<Holder>,
}

impl Model for OpenBraces {
    ghost use Rattle.std.specs.Prelude.{List, reverse};
    ghost use Rattle.pq_syntax.specs.declared.loose.open.Holder.{Holder};

    ghost Value = { List Holder };

    ghost view = { λ o. reverse o.holders.items };
}

/// What holds the statements of a file.
const FILE_LEVEL: Holder = Holder {
    brace: None,
    depth: 0,
};

/// The brace that `sight` opens, if it opens one.
fn opened(sight: Sight) -> Option<Brace>
    ensures { result ≡ opened sight }
{
    match sight {
        Sight::Message => Some(Brace::Message),
        Sight::Enum => Some(Brace::Enum),
        Sight::Service => Some(Brace::Service),
        Sight::Block(_) => Some(Brace::Block),
        Sight::Group(_, true) => Some(Brace::Message),
        Sight::Opens => Some(Brace::Other),
        _ => None,
    }
}

/// What holds a statement in a brace of `brace`, which `depth` statements contain.
fn within(depth: u8, brace: Brace) -> Holder
    requires { (within depth brace).depth ≤ 255 }
    ensures { result ≡ within depth brace }
{
    let deeper = match brace {
        Brace::Message | Brace::Enum | Brace::Service => depth + 1,
        Brace::Block | Brace::Other => depth,
    };
    Holder {
        brace: Some(brace),
        depth: deeper,
    }
}

impl OpenBraces {
    /// No open brace.
    pub(crate) fn new(alloc: Global) -> OpenBraces
        ensures { result ≡ [] }
    {
        OpenBraces {
            holders: Vec::new(alloc),
        }
    }

    /// Closes all braces.
    pub(crate) fn clear(&mut self)
        ensures { self.new ≡ [] }
    {
        self.holders.clear();
    }

    /// What holds a statement now.
    pub(crate) fn innermost(&self) -> Holder
        ensures { result ≡ innermost self.now }
    {
        match self.holders.last() {
            Some(holder) => *holder,
            None => FILE_LEVEL,
        }
    }

    /// Opens the brace of `sight` or closes the innermost, where one of the two stands.
    pub(crate) fn turn(&mut self, sight: Sight) -> Result<(), Memory>
        requires { deepens sight ≡ true → (innermost self.old).depth ≤ 63 }
        ensures { OnOk result (self.new ≡ turned self.old sight) }
    {
        if let Some(brace) = opened(sight) {
            let holder = within(self.innermost().depth, brace);
            self.holders.push(holder)?;
        } else if matches!(sight, Sight::Closes) {
            self.holders.pop();
        }
        Ok(())
    }
}
