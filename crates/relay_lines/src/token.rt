ghost use Rattle.std.specs.Prelude.{◌≡◌, ◌++◌, ◌∷◌, [], OnOk, OnErr, option_map};
ghost use Rattle.dill_script.specs.Tokens.{Plain, Text, is_plain};
ghost use Rattle.dill_script.specs.Operands.{plain_in};
ghost use Rattle.relay_lines.specs.Texts.{text_in};

use dill_base::{NoMemory, Octets};
use std::alloc::Global;
use std::marker::Model;

#[derive(Debug, Drop)]
enum Spelled {
    Plain(Octets),
    Text(Octets),
}

/// A token of a line: plain as it stands, or a text as the bytes that it means.
#[derive(Debug, Drop)]
pub struct Token {
    spelled: Spelled,
}

impl Model for Token {
    ghost use Rattle.dill_script.specs.Tokens.{Token};

    ghost Value = { Token };

    ghost use Rattle.relay_lines.specs.Tokens.{token_in};

    ghost view = { λ t. token_in t.spelled };
}

impl Token {
    /// A plain token, as it stands.
    pub(crate) fn from_plain(word: Octets) -> Token
        ensures { result ≡ Plain word }
    {
        Token {
            spelled: Spelled::Plain(word),
        }
    }

    /// A text by the bytes that it means.
    pub(crate) fn from_text(bytes: Octets) -> Token
        ensures { result ≡ Text bytes }
    {
        Token {
            spelled: Spelled::Text(bytes),
        }
    }

    /// The bytes of a plain token; none of a text.
    pub fn plain(&self) -> Option<&[u8]>
        ensures { option_map (λ x. x.now) result ≡ plain_in self.now }
    {
        match &self.spelled {
            Spelled::Plain(word) => Some(word.as_slice()),
            Spelled::Text(_) => None,
        }
    }

    /// The bytes that a text means; none of a plain token.
    pub fn text(&self) -> Option<&[u8]>
        ensures { option_map (λ x. x.now) result ≡ text_in self.now }
    {
        match &self.spelled {
            Spelled::Plain(_) => None,
            Spelled::Text(bytes) => Some(bytes.as_slice()),
        }
    }

    /// Whether it is plain and these bytes.
    pub fn is_plain(&self, word: &[u8]) -> bool
        ensures { result ≡ is_plain word.now self.now }
    {
        match self.plain() {
            Some(bytes) => bytes == word,
            None => false,
        }
    }
}

/// The tokens of a line, in their order.
#[derive(Debug, Drop)]
pub struct Tokens {
    tokens: Vec<Token>,
}

impl Model for Tokens {
    ghost use Rattle.std.specs.Prelude.{List};
    ghost use Rattle.dill_script.specs.Tokens.{Token};

    ghost Value = { List Token };

    ghost view = { λ t. t.tokens.items };
}

impl Tokens {
    /// None. It takes no memory.
    pub(crate) fn new(alloc: Global) -> Tokens
        ensures { result ≡ [] }
    {
        Tokens {
            tokens: Vec::new(alloc),
        }
    }

    /// Adds one at the end. Refused, it changes nothing but that the token is gone.
    pub(crate) fn push(&mut self, token: Token) -> Result<(), NoMemory>
        ensures ok { OnOk result (self.new ≡ self.old ++ token ∷ []) }
        ensures err { OnErr result (self.new ≡ self.old) }
    {
        match self.tokens.push(token) {
            Ok(()) => Ok(()),
            Err(_) => Err(NoMemory),
        }
    }

    pub fn as_slice(&self) -> &[Token]
        ensures { result.now ≡ self.now }
    {
        self.tokens.as_slice()
    }
}
