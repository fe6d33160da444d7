//! A place in the tokens of a text, and one word there.

ghost use Rattle.std.specs.Prelude.{◌≡◌, ◌<◌, IfErr, IfOk, IfSome, IsTrue, Ok, slice_range};
ghost use Rattle.bf_base.specs.Names.{folded, is_name};
ghost use Rattle.bf_lex.specs.Lexing.{IsLexed};
ghost use Rattle.bf_lex.specs.declared.sign.Sign.TheVariants.{Minus as MinusCase};
ghost use Rattle.bf_phrase.specs.declared.error.ReadStop.TheVariants.{Memory as OutOfMemory};
ghost use Rattle.bf_phrase.specs.Words.{Keyword as KeywordWord, Sign as SignWord};
ghost use Rattle.bf_phrase.specs.Cursors.{IsNext, IsPlace, left, words};
ghost use Rattle.bf_phrase.specs.Outcome.{IsBehind, IsExpected, IsNamed, seen, some_seen};
ghost use Rattle.bf_phrase.specs.Tokens.{IsTokenOf};

use crate::error::ReadStop;
use bf_base::{Name, NameError};
use bf_lex::{Keyword, Sign, Token, TokenKind};
use std::alloc::Global;

/// The tokens that are left, and the text whose tokens they are.
#[derive(Clone, Copy)]
pub struct Cursor<'a> {
    pub text: &'a [u8],
    pub tokens: &'a [Token],
}

impl<'a> Cursor<'a> {
    /// The place before the tokens of a text.
    pub fn new(text: &'a [u8], tokens: &'a [Token]) -> Cursor<'a>
        requires { IsLexed text.now (Ok tokens.now) }
        ensures text { result.text.now ≡ text.now }
        ensures tokens { result.tokens.now ≡ tokens.now }
        ensures place { IsPlace result }
    {
        Cursor { text, tokens }
    }

    /// The first token, and the place behind it.
    pub fn next(self) -> Option<(Token, Cursor<'a>)>
        requires { IsPlace self }
        ensures next { IsNext self.entry result }
        ensures token { IfSome result (λ next. IsTokenOf self.entry.text.now next.0) }
        ensures place { IfSome result (λ next. IsPlace next.1) }
        ensures shorter { IfSome result (λ next. left next.1 < left self.entry) }
    {
        match self.tokens {
            [] => None,
            [first, rest @ ..] => Some((
                *first,
                Cursor {
                    text: self.text,
                    tokens: rest,
                },
            )),
        }
    }

    /// The place behind a sign other than `-`, where that stands first.
    pub fn sign(self, sign: Sign) -> Option<Cursor<'a>>
        requires other { sign ≡ MinusCase → ⊥ }
        requires place { IsPlace self }
        ensures found { IsBehind (SignWord sign) (words self.entry) (some_seen words result) }
        ensures place { IfSome result IsPlace }
        ensures shorter { IfSome result (λ rest. left rest < left self.entry) }
    {
        match self.next() {
            None => None,
            Some((first, behind)) => {
                if first.kind == TokenKind::Sign(sign) {
                    Some(behind)
                } else {
                    None
                }
            }
        }
    }

    /// The place behind a keyword, where that stands first.
    pub fn keyword(self, keyword: Keyword) -> Option<Cursor<'a>>
        requires { IsPlace self }
        ensures found { IsBehind (KeywordWord keyword) (words self.entry) (some_seen words result) }
        ensures place { IfSome result IsPlace }
        ensures shorter { IfSome result (λ rest. left rest < left self.entry) }
    {
        match self.next() {
            None => None,
            Some((first, behind)) => match first.kind {
                TokenKind::Keyword(found) => { if found == keyword { Some(behind) } else { None } }
                _ => None,
            },
        }
    }

    /// The place behind a sign other than `-`, which has to stand first.
    pub fn expect_sign(self, sign: Sign) -> Result<Cursor<'a>, ReadStop>
        requires other { sign ≡ MinusCase → ⊥ }
        requires place { IsPlace self }
        ensures found { IsExpected (SignWord sign) (words self.entry) (seen words result) }
        ensures place { IfOk result IsPlace }
        ensures shorter { IfOk result (λ rest. left rest < left self.entry) }
    {
        match self.sign(sign) {
            Some(rest) => Ok(rest),
            None => Err(ReadStop::Syntax(self.tokens.len())),
        }
    }

    /// The place behind a keyword, which has to stand first.
    pub fn expect_keyword(self, keyword: Keyword) -> Result<Cursor<'a>, ReadStop>
        requires { IsPlace self }
        ensures found { IsExpected (KeywordWord keyword) (words self.entry) (seen words result) }
        ensures place { IfOk result IsPlace }
        ensures shorter { IfOk result (λ rest. left rest < left self.entry) }
    {
        match self.keyword(keyword) {
            Some(rest) => Ok(rest),
            None => Err(ReadStop::Syntax(self.tokens.len())),
        }
    }

    /// The name that has to stand first, and the place behind it.
    pub fn name(self, alloc: Global) -> Result<(Name, Cursor<'a>), ReadStop>
        requires { IsPlace self }
        ensures found { IsNamed (words self.entry) (seen (λ x. (x.0, words x.1)) result) }
        ensures place { IfOk result (λ x. IsPlace x.1) }
        ensures shorter { IfOk result (λ x. left x.1 < left self.entry) }
    {
        match self.next() {
            None => Err(ReadStop::Syntax(self.tokens.len())),
            Some((first, behind)) => match first.kind {
                TokenKind::Name => Ok((name_of(alloc, bytes_of(self.text, first))?, behind)),
                _ => Err(ReadStop::Syntax(self.tokens.len())),
            },
        }
    }
}

fn name_of(alloc: Global, bytes: &[u8]) -> Result<Name, ReadStop>
    requires { IsTrue (is_name (folded bytes.now)) }
    ensures memory { IfErr result (λ e. e ≡ OutOfMemory) }
    ensures value { IfOk result (λ name. name ≡ folded bytes.now) }
{
    match Name::of(alloc, bytes) {
        Ok(name) => Ok(name),
        Err(NameError::Memory) => Err(ReadStop::Memory),
        Err(NameError::BadName) => unreachable!(),
    }
}

/// The bytes of a token.
pub(crate) fn bytes_of(text: &[u8], token: Token) -> &[u8]
    requires { IsTokenOf text.now token }
    ensures { result.now ≡ slice_range text.now token.at token.end }
{
    &text[token.at as usize..token.end as usize]
}
