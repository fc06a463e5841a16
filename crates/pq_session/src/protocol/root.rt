//! The root folder of a session: the files that URIs name below it, and the URIs of files.
//!
//! A path that begins with the root and `/` names the file of what follows. Another path names
//! itself. So the escapes that a client writes make no other name, and the names of files below the
//! root are those that import statements write.
ghost use Rattle.std.specs.Prelude.{◌≡◌, option_map, string_bytes, IfOk};
ghost use Rattle.pq_session.specs.Uri.{root_of, file_of, uri_of, without_last_slashes, name_below as name_below_root};

use crate::protocol::uris::{
    decoded_path, file_at, is_absolute, name_below, push_encoded, trim_last_slashes,
};
use pq_names::Text;
use std::alloc::{AllocError, Global};
use std::marker::Model;

/// The root folder of a session. Contracts see it as its path, without slashes at its end; the path
/// is empty if the client named no root.
///
/// It is a small value that never changes, and copies share a long path. It can be sent to other
/// threads and shared among them.
#[derive(Debug, Drop)]
pub struct Root {
    path: Text,
}

impl Model for Root {
    ghost use Rattle.std.specs.Prelude.{List, ℕ};

    ghost Value = { List ℕ };

    ghost view = { λ root. root.path };
}

impl Root {
    /// The root of the member `rootUri` of `initialize` (LSP 3.17, "InitializeParams"). It is empty
    /// if `uri` is absent or names no path.
    pub fn of(alloc: Global, uri: Option<&str>) -> Result<Root, AllocError>
        // The root of a session is that of the definitions, by the member `rootUri` of
        // `initialize`.
        ensures { IfOk result (λ root. root ≡ root_of (option_map (λ text. text.now) uri.entry)) }
    {
        let path = match uri {
            Some(uri) => decoded_path(alloc, uri)?,
            None => None,
        };
        let path = match &path {
            Some(path) => trim_last_slashes(path.as_str()),
            None => "",
        };
        Ok(Root {
            path: Text::new(alloc, path)?,
        })
    }

    /// The root folder at `path`.
    pub fn at(alloc: Global, path: &str) -> Result<Root, AllocError>
        // The root at a path is that of the definitions.
        ensures { IfOk result (λ root. root ≡ without_last_slashes path.now) }
    {
        Ok(Root {
            path: Text::new(alloc, trim_last_slashes(path))?,
        })
    }

    /// A copy, which takes no memory. `Memory` comes only where a long path has as many copies as
    /// can be counted.
    pub fn copy(&self) -> Result<Root, AllocError>
        // A copy is equal.
        ensures { IfOk result (λ root. root ≡ self.now) }
    {
        Ok(Root {
            path: self.path.copy()?,
        })
    }

    /// The path.
    pub fn path(&self) -> &str
        // The path of the root.
        ensures { result.now ≡ self.now }
    {
        self.path.as_str()
    }

    /// The name of the file at `path`, if `path` is below the root.
    pub fn name_below<'a>(&self, path: &'a str) -> Option<&'a str>
        // The name of the file at a path is that of the definitions.
        ensures { option_map (λ name. name.now) result ≡ name_below_root self.now path.now }
    {
        name_below(self.path.as_str(), path)
    }

    /// The name of the file of `uri`, if it names one.
    #[tactic(auto, unfolding(crate::specs::Uri::file_of))]
    pub fn file_of(&self, alloc: Global, uri: &str) -> Result<Option<Text>, AllocError>
        // The name of the file of a URI is that of the definitions.
        ensures { IfOk result (λ file. file ≡ file_of self.now uri.now) }
    {
        let Some(path) = decoded_path(alloc, uri)? else {
            return Ok(None);
        };
        match file_at(self.path.as_str(), path.as_str()) {
            Some(name) => Ok(Some(Text::new(alloc, name)?)),
            None => Ok(None),
        }
    }

    /// The URI of the file `name`. `file_of` of it gives `name` back, if `name` is the name of a
    /// file (the law `uris_come_back`).
    #[tactic(auto, using(crate::proofs::EscapeLemmas::uri_absolute, crate::proofs::EscapeLemmas::uri_relative))]
    pub fn uri_of(&self, alloc: Global, name: &str) -> Result<String, AllocError>
        // The printed URI of a file is that of the definitions.
        ensures { IfOk result (λ uri. string_bytes uri ≡ uri_of self.now name.now) }
    {
        let mut uri = String::from_str(alloc, "file://")?;
        if is_absolute(name) {
            push_encoded(&mut uri, name)?;
            return Ok(uri);
        }
        push_encoded(&mut uri, self.path.as_str())?;
        uri.push_str("/")?;
        push_encoded(&mut uri, name)?;
        Ok(uri)
    }
}
