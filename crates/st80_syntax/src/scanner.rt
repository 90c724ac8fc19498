// The tokens of a text: all of them, or the place behind them where no rule begins a piece.
ghost use Rattle.std.specs.Prelude.{IfOk, OnOk};
ghost use Rattle.st80_syntax.specs.Tokens.{Adds, IsScanned};

use crate::pieces::piece_at;
use crate::token::{Fault, Kind, Token};
use std::alloc::{AllocError, Global};

/// Where no rule takes what stands in a text, and why.
#[derive(Clone, Copy, Debug, PartialEq, Eq)]
pub struct Refusal {
    pub at: usize,
    pub fault: Fault,
}

/// What a text is scanned as.
#[derive(Debug, Drop)]
pub enum Scanned {
    Tokens(Vec<Token>),
    Refused(Refusal),
}

/// Adds a token, unless it is a blank or a remark.
fn add(tokens: &mut Vec<Token>, token: Token) -> Result<(), AllocError>
    ensures { OnOk result (Adds token tokens.old.items tokens.new.items) }
{
    match token.kind {
        Kind::Space => Ok(()),
        _ => {
            tokens.push(token)?;
            Ok(())
        }
    }
}

/// The tokens of a text.
pub fn scan(alloc: Global, text: &[u8]) -> Result<Scanned, AllocError>
    ensures { IfOk result (λ scanned. IsScanned text.now scanned) }
{
    let mut tokens = Vec::new(alloc);
    let mut at = 0;
    'each: while at < text.len() {
        let (kind, len) = match piece_at(&text[at..]) {
            Ok(piece) => piece,
            Err(fault) => return Ok(Scanned::Refused(Refusal { at, fault })),
        };
        add(&mut tokens, Token { kind, at, len })?;
        at += len;
    }
    Ok(Scanned::Tokens(tokens))
}
