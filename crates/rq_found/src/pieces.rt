//! Words and numbers, one behind the other. What puts many of them is cheap to prove by a table of
//! them: each format text of its own is dear, and so is each way out.

ghost use Rattle.std.specs.Prelude.{◌≡◌, ◌++◌, IfOk, OnOk, length, min, string_bytes, take};
ghost use Rattle.std.specs.List.{flat_map};
ghost use Rattle.rq_model.specs.Reports.{hex_of};
ghost use Rattle.rq_found.specs.Texts.{piece_text};

use std::alloc::{AllocError, Global};
use std::fmt::Write;

/// What is answered by a call that puts something into a text: memory alone refuses it.
pub type Put = Result<(), AllocError>;

/// A word, or a number in decimal digits.
#[derive(Clone, Copy)]
pub enum TextPiece<'a> {
    /// Text as it is.
    Word(&'a str),
    /// A number.
    Number(u64),
}

fn put_piece(text: &mut String, piece: &TextPiece<'_>) -> Put
    ensures { OnOk result
        (string_bytes text.new ≡ string_bytes text.old ++ piece_text piece.now) }
{
    match piece {
        TextPiece::Word(word) => text.push_str(word),
        TextPiece::Number(number) => write!(text, "{number}"),
    }
}

impl TextPiece<'_> {
    /// Puts the pieces, in order.
    pub fn put_all(text: &mut String, pieces: &[TextPiece<'_>]) -> Put
        ensures { OnOk result (string_bytes text.new
            ≡ string_bytes text.old ++ flat_map piece_text pieces.now) }
    {
        for piece in pieces {
            put_piece(text, piece)?;
        }
        Ok(())
    }

    /// Puts the first bytes, `most` at most, as digits, two each, and answers how many bytes these are.
    pub fn put_digits(
        alloc: Global,
        text: &mut String,
        bytes: &[u8],
        most: usize,
    ) -> Result<usize, AllocError>
        ensures { IfOk result (λ shown. (shown ≡ min (length bytes.now) most) × (string_bytes text.new
            ≡ string_bytes text.old ++ flat_map hex_of (take shown bytes.now))) }
    {
        let shown = bytes.len().min(most);
        let digits = hex::encode(alloc, &bytes[..shown])?;
        text.push_str(digits.as_str())?;
        Ok(shown)
    }
}
