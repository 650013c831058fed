// The tokens that are still to be read, and what was learned from those before them.
ghost use Rattle.std.specs.Prelude.{◌≡◌, ◌≤◌, ◌<◌, ◌+◌, drop, length};

use crate::names::name_of;
use crate::refused::{Place, Refusal};
use crate::scope::Scope;
use md_base::Name;
use md_token::{Kind, Token, is_word, same_kind};
use std::alloc::Global;

/// The longest name, in bytes, and the longest list of arguments or variables.
pub(crate) const MOST: usize = 255;

/// What a parser reads from.
#[derive(Drop)]
pub(crate) struct Input<'a> {
    pub alloc: Global,
    /// The tokens from the next one on.
    pub rest: &'a [Token<'a>],
    /// The name of the program's own module.
    pub home: &'a [u8],
    /// The variables of the clause so far.
    pub scope: Scope,
    /// How many call sites there are so far.
    pub sites: u32,
    /// Each variable took a token of its own.
    pub ghost few: { length scope + length rest.now < 4294967296 },
    /// So did each call site.
    pub ghost numbered: { sites + length rest.now < 4294967296 },
}

impl<'a> Input<'a> {
    ghost use Rattle.md_token.specs.Lexemes.{lexeme_of};
    ghost use Rattle.md_reader.specs.Input as spec;
    ghost use Rattle.md_reader.specs.Input.{input_of, Reads};

    /// The next token.
    #[tactic(auto, unfolding(crate::specs::Input::input_of, crate::specs::Input::token))]
    pub fn token(&self) -> Token<'a>
        ensures { lexeme_of result ≡ spec.token (input_of self.now) }
    {
        match self.rest.first() {
            None => Token {
                kind: Kind::Stop,
                text: b"",
                line: 0,
            },
            Some(token) => *token,
        }
    }

    pub fn kind(&self) -> Kind
        ensures { result ≡ spec.kind_at (input_of self.now) }
    {
        self.token().kind
    }

    /// Takes the next token.
    #[tactic(auto, unfolding(crate::specs::Input::input_of, crate::specs::Input::next))]
    pub fn advance(&mut self)
        ensures { input_of self.new ≡ spec.next (input_of self.old) }
    {
        self.rest = past_first(self.rest);
    }

    #[tactic(auto, unfolding(crate::specs::Input::input_of, crate::specs::Input::place))]
    fn place(&self) -> Place
        ensures { result ≡ spec.place (input_of self.now) }
    {
        Place {
            line: self.token().line,
            left: self.rest.len(),
        }
    }

    /// The next token is at fault, for syntax.
    pub fn refuse(&self) -> Refusal
        ensures { result ≡ Refusal.Syntax (spec.place (input_of self.now)) }
    {
        Refusal::Syntax(self.place())
    }

    /// The next token is at fault, for a limit.
    pub fn limit(&self) -> Refusal
        ensures { result ≡ Refusal.Limit (spec.place (input_of self.now)) }
    {
        Refusal::Limit(self.place())
    }

    /// The name of the program's own module.
    #[tactic(auto, unfolding(crate::specs::Input::input_of))]
    pub fn home(&self) -> &'a [u8]
        ensures { result.now ≡ (input_of self.now).home }
    {
        self.home
    }

    /// How many tokens there are from the next one on.
    #[tactic(auto, unfolding(crate::specs::Input::input_of))]
    pub fn left(&self) -> usize
        ensures { result ≡ spec.turns (input_of self.now) }
    {
        self.rest.len()
    }

    /// Whether the next token is of this kind.
    #[tactic(auto, unfolding(crate::specs::Input::sees))]
    pub fn sees(&self, kind: Kind) -> bool
        ensures { result ≡ spec.sees kind (input_of self.now) }
    {
        same_kind(self.kind(), kind)
    }

    /// Takes a token of this kind, if it comes next.
    #[tactic(auto, unfolding(crate::specs::Input::after))]
    pub fn eat(&mut self, kind: Kind) -> bool
        ensures { spec.eat kind (input_of self.old) ≡ Ok (result, input_of self.new) }
    {
        let sees = self.sees(kind);
        if sees {
            self.advance();
        }
        sees
    }

    /// Takes a token of this kind, and gives its line.
    #[tactic(auto, unfolding(crate::specs::Input::expect))]
    pub fn expect(&mut self, kind: Kind) -> Result<u32, Refusal>
        ensures { Reads (λ line. line) (spec.expect kind (input_of self.old)) result (input_of self.new) }
    {
        if !self.sees(kind) {
            return Err(self.refuse());
        }
        let line = self.token().line;
        self.advance();
        Ok(line)
    }

    /// Takes the next token, whose text is a name and isn't empty, if it is no longer than a name may be.
    #[tactic(auto, unfolding(crate::specs::Input::take_name, crate::specs::Input::input_of))]
    pub fn take_name(&mut self, text: &[u8]) -> Result<Name, Refusal>
        requires { 1 ≤ length text.now }
        ensures { Reads (λ name. name) (spec.take_name text.now (input_of self.old)) result (input_of self.new) }
    {
        if text.len() > MOST {
            return Err(self.limit());
        }
        let name = name_of(self.alloc, text)?;
        self.advance();
        Ok(name)
    }

    #[tactic(auto, unfolding(crate::specs::Input::name))]
    pub fn name(&mut self) -> Result<Name, Refusal>
        ensures { Reads (λ name. name) (spec.name (input_of self.old)) result (input_of self.new) }
    {
        if !self.sees(Kind::Name) {
            return Err(self.refuse());
        }
        self.take_name(self.token().text)
    }

    /// Takes a name that is this word, and gives its line.
    #[tactic(auto, unfolding(crate::specs::Input::word))]
    pub fn word(&mut self, word: &str) -> Result<u32, Refusal>
        ensures { Reads (λ line. line) (spec.word word.now (input_of self.old)) result (input_of self.new) }
    {
        let token = self.token();
        if !self.sees(Kind::Name) || !is_word(token.text, word) {
            return Err(self.refuse());
        }
        self.advance();
        Ok(token.line)
    }

    /// Takes a variable that is none of these.
    #[tactic(auto, unfolding(crate::specs::Input::variable, crate::specs::Input::input_of, crate::specs::Input::next))]
    pub fn variable(&mut self, seen: &[u32]) -> Result<u32, Refusal>
        ensures { Reads (λ place. place) (spec.variable seen.now (input_of self.old)) result (input_of self.new) }
    {
        if !self.sees(Kind::Variable) {
            return Err(self.refuse());
        }
        let text = self.token().text;
        let place = self.scope.place_of(text);
        if seen.contains(&place) {
            return Err(self.refuse());
        }
        if text.len() > MOST {
            return Err(self.limit());
        }
        self.advance();
        self.scope.add(self.alloc, text)?;
        Ok(place)
    }

    /// The name of the program's own module is this one.
    #[tactic(auto, unfolding(crate::specs::Input::input_of))]
    pub fn set_home(&mut self, home: &'a [u8])
        ensures { input_of self.new ≡ record (input_of self.old) { home = home.now } }
    {
        self.home = home;
    }

    /// The names of the clause's variables, at its end.
    #[tactic(auto, unfolding(crate::specs::Input::input_of, crate::specs::Input::end_clause))]
    pub fn end_clause(&mut self) -> Result<Vec<Name>, Refusal>
        ensures { Reads (λ names. names.items) (spec.end_clause (input_of self.old)) result (input_of self.new) }
    {
        let names = self.scope.to_names(self.alloc)?;
        self.scope = Scope::new(self.alloc);
        Ok(names)
    }

    /// The number of the next call site, which took a token that none before it took.
    #[tactic(auto, unfolding(crate::specs::Input::site, crate::specs::Input::input_of))]
    pub fn site(&mut self) -> u32
        requires { self.now.sites + 1 + length self.now.rest.now < 4294967296 }
        ensures { spec.site (input_of self.old) ≡ Ok (result, input_of self.new) }
    {
        let site = self.sites;
        self.sites += 1;
        site
    }
}

/// The tokens past the first one.
fn past_first<'a>(tokens: &'a [Token<'a>]) -> &'a [Token<'a>]
    ensures { result.now ≡ drop 1 tokens.now }
{
    match tokens {
        [] => tokens,
        [_, rest @ ..] => rest,
    }
}
