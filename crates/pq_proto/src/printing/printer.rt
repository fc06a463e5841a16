//! JSON texts, printed token by token (RFC 8259). No tree is built, and each part is printed once.
ghost use Rattle.std.specs.Prelude.{◌≡◌, [], ◌∷◌, ◌++◌, decimal, string_bytes, IfOk, OnOk};
ghost use Rattle.std.specs.Fmt.{signed_decimal};
ghost use Rattle.json.specs.Print.{print, IsNumber};
ghost use Rattle.json.specs.Token.{begin_object, end_object, begin_array, end_array, key, string, number, boolean, null};

use crate::Memory;
use json::Writer;
use pq_names::Text;
use std::alloc::Global;
use std::marker::Model;

/// A JSON text that is printed (RFC 8259). Contracts see its tokens so far.
#[derive(Drop)]
pub struct Printer {
    out: Writer,
}

impl Model for Printer {
    ghost use Rattle.std.specs.Prelude.{◌≡◌, [], List};
    ghost use Rattle.json.specs.Token.{Token, tokens_code};

    ghost Value = { List Token };

    ghost coded = { tokens_code };

    ghost view = { λ p. p.out.tokens };

    ghost invariant = { λ p. p.out.before ≡ [] };
}

impl Printer {
    /// A text without tokens, which takes its memory from `alloc`.
    pub fn new(alloc: Global) -> Printer
        // The text of a printer is its tokens, printed; a new one has none.
        ensures { result ≡ [] }
    {
        Printer {
            out: Writer::new(Vec::new(alloc)),
        }
    }

    /// A text without tokens, with room for `count` bytes. It takes its memory from `alloc`.
    pub fn with_capacity(alloc: Global, count: usize) -> Result<Printer, Memory>
        // The text of a printer is its tokens, printed; a new one has none.
        ensures { IfOk result (λ p. p ≡ []) }
    {
        Ok(Printer {
            out: Writer::new(Vec::with_capacity(alloc, count)?),
        })
    }

    /// The text.
    pub fn into_string(self) -> String
        // The text of a printer is its tokens, printed; a new one has none.
        ensures { string_bytes result ≡ print self }
    {
        match String::from_utf8(self.out.into_inner()) {
            Ok(text) => text,
            Err(_) => unreachable!(),
        }
    }

    /// The text, as one that is shared.
    pub fn into_text(self, alloc: Global) -> Result<Text, Memory>
        // The text of a printer is its tokens, printed; a new one has none.
        ensures { IfOk result (λ t. t ≡ print self) }
    {
        Text::from_string(alloc, self.into_string())
    }

    /// Prints the start of an object.
    pub fn begin_object(&mut self) -> Result<(), Memory>
        // The call adds the tokens that it names.
        ensures { OnOk result (self.new ≡ self.old ++ begin_object ∷ []) }
    {
        self.out.begin_object()?;
        Ok(())
    }

    /// Prints the end of an object.
    pub fn end_object(&mut self) -> Result<(), Memory>
        // The call adds the tokens that it names.
        ensures { OnOk result (self.new ≡ self.old ++ end_object ∷ []) }
    {
        self.out.end_object()?;
        Ok(())
    }

    /// Prints the start of a list.
    pub fn begin_array(&mut self) -> Result<(), Memory>
        // The call adds the tokens that it names.
        ensures { OnOk result (self.new ≡ self.old ++ begin_array ∷ []) }
    {
        self.out.begin_array()?;
        Ok(())
    }

    /// Prints the end of a list.
    pub fn end_array(&mut self) -> Result<(), Memory>
        // The call adds the tokens that it names.
        ensures { OnOk result (self.new ≡ self.old ++ end_array ∷ []) }
    {
        self.out.end_array()?;
        Ok(())
    }

    /// Prints the name of a member.
    pub fn key(&mut self, name: &str) -> Result<(), Memory>
        // The call adds the tokens that it names.
        ensures { OnOk result (self.new ≡ self.old ++ key name.now ∷ []) }
    {
        self.out.key(name)?;
        Ok(())
    }

    /// Prints a text.
    pub fn text(&mut self, text: &str) -> Result<(), Memory>
        // The call adds the tokens that it names.
        ensures { OnOk result (self.new ≡ self.old ++ string text.now ∷ []) }
    {
        self.out.string(text)?;
        Ok(())
    }

    /// Prints the number `n`.
    pub fn unsigned(&mut self, n: u64) -> Result<(), Memory>
        // The call adds the tokens that it names.
        ensures { OnOk result (self.new ≡ self.old ++ number (decimal n) ∷ []) }
    {
        self.out.u64(n)?;
        Ok(())
    }

    /// Prints the number `n`, which may be below zero.
    pub fn signed(&mut self, n: i64) -> Result<(), Memory>
        // The call adds the tokens that it names.
        ensures { OnOk result (self.new ≡ self.old ++ number (signed_decimal n) ∷ []) }
    {
        self.out.i64(n)?;
        Ok(())
    }

    /// Prints a number by its text.
    pub fn number(&mut self, text: &str) -> Result<(), Memory>
        // The text is a number of JSON (RFC 8259).
        requires { IsNumber text.now }
        // The call adds the tokens that it names.
        ensures { OnOk result (self.new ≡ self.old ++ number text.now ∷ []) }
    {
        self.out.number(text)?;
        Ok(())
    }

    /// Prints `null`.
    pub fn null(&mut self) -> Result<(), Memory>
        // The call adds the tokens that it names.
        ensures { OnOk result (self.new ≡ self.old ++ null ∷ []) }
    {
        self.out.null()?;
        Ok(())
    }

    /// Prints the member `name` with the text `text`.
    pub fn text_member(&mut self, name: &str, text: &str) -> Result<(), Memory>
        // The call adds the tokens that it names.
        ensures { OnOk result (self.new ≡ self.old ++ key name.now ∷ string text.now ∷ []) }
    {
        self.key(name)?;
        self.text(text)?;
        Ok(())
    }

    /// Prints the member `name` with the number `n`.
    pub fn unsigned_member(&mut self, name: &str, n: u64) -> Result<(), Memory>
        // The call adds the tokens that it names.
        ensures { OnOk result (self.new ≡ self.old ++ key name.now ∷ number (decimal n) ∷ []) }
    {
        self.key(name)?;
        self.unsigned(n)?;
        Ok(())
    }

    /// Prints the member `name` with `true` or `false`.
    pub fn boolean_member(&mut self, name: &str, b: bool) -> Result<(), Memory>
        // The call adds the tokens that it names.
        ensures { OnOk result (self.new ≡ self.old ++ key name.now ∷ boolean b ∷ []) }
    {
        self.key(name)?;
        self.out.boolean(b)?;
        Ok(())
    }

    /// Prints the member `name` with null.
    pub fn null_member(&mut self, name: &str) -> Result<(), Memory>
        // The call adds the tokens that it names.
        ensures { OnOk result (self.new ≡ self.old ++ key name.now ∷ null ∷ []) }
    {
        self.key(name)?;
        self.null()?;
        Ok(())
    }

    /// Prints the member `name` with the empty list.
    pub fn empty_member(&mut self, name: &str) -> Result<(), Memory>
        // The call adds the tokens that it names.
        ensures { OnOk result (self.new
            ≡ self.old ++ key name.now ∷ begin_array ∷ end_array ∷ []) }
    {
        self.key(name)?;
        self.begin_array()?;
        self.end_array()?;
        Ok(())
    }
}
