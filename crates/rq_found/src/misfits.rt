//! Where a body is none that a record has.

use crate::pieces::TextPiece::{self, Number, Word};
use rq_record::{Name, Payload, Version};

/// At which byte a body shows that it spells no record, and why, in words.
pub(crate) type Misfit = (usize, [TextPiece<'static>; 3]);

// What stands in a body, one behind the other.
#[derive(Clone, Copy)]
enum Field {
    // So many bytes.
    Bytes(usize, &'static str),
    // A registrant and a tag, or nobody.
    Who,
    // A name up to the end.
    Name,
    // A payload up to the end.
    Payload,
}

// What a body says that ends in this field.
fn cut(field: &'static str) -> [TextPiece<'static>; 3] {
    [Word("the body ends in its "), Word(field), Word("")]
}

// Whether the bytes, which begin at this byte of a body, are a name.
fn fits_name(name: &[u8], mut at: usize) -> Result<(), Misfit> {
    let count = Number(name.len() as u64);
    if name.is_empty() {
        return Err((at, [Word("the name has no bytes"), Word(""), Word("")]));
    }
    if name.len() > Name::LIMIT {
        return Err((at, [Word("the name has "), count, Word(" bytes")]));
    }
    for byte in name {
        let number = Number(u64::from(*byte));
        if !matches!(byte, b'a'..=b'z' | b'0'..=b'9' | b'-' | b'.' | b'_') {
            return Err((at, [Word("no name has the byte "), number, Word("")]));
        }
        at = at.saturating_add(1);
    }
    Ok(())
}

// What is left of a body, and at which of its bytes that begins.
#[derive(Clone, Copy)]
struct BodyRest<'a> {
    bytes: &'a [u8],
    at: usize,
}

impl<'a> BodyRest<'a> {
    // Takes the bytes of the next field.
    fn field(&mut self, count: usize, name: &'static str) -> Result<&'a [u8], Misfit> {
        if self.bytes.len() < count {
            return Err((self.at, cut(name)));
        }
        let (field, bytes) = self.bytes.split_at(count);
        self.bytes = bytes;
        self.at = self.at.saturating_add(count);
        Ok(field)
    }

    // Takes a name of so many bytes.
    fn name(&mut self, count: usize) -> Result<(), Misfit> {
        let at = self.at;
        fits_name(self.field(count, "name")?, at)
    }

    // Takes a registrant and a tag, or nobody, whose tag is 0.
    fn who(&mut self) -> Result<(), Misfit> {
        let count = self
            .field(1, "name's length")?
            .first()
            .copied()
            .unwrap_or(0);
        if count > 0 {
            self.name(count as usize)?;
        }
        let at = self.at;
        let tag = self.field(8, "tag")?;
        if count == 0 && tag.iter().any(|byte| *byte != 0) {
            let words = Word("nobody is named, and the tag is not 0");
            return Err((at, [words, Word(""), Word("")]));
        }
        Ok(())
    }

    // Takes all that is left as a payload.
    fn payload(&mut self) -> Result<(), Misfit> {
        let (at, count) = (self.at, self.bytes.len());
        self.field(count, "payload")?;
        if count > Payload::LIMIT {
            let number = Number(count as u64);
            return Err((at, [Word("the payload has "), number, Word(" bytes")]));
        }
        Ok(())
    }

    // Takes a field.
    fn take(&mut self, field: &Field) -> Result<(), Misfit> {
        match field {
            Field::Bytes(count, name) => {
                self.field(*count, name)?;
                Ok(())
            }
            Field::Who => self.who(),
            Field::Name => self.name(self.bytes.len()),
            Field::Payload => self.payload(),
        }
    }

    // These fields are all that is left.
    fn fits(mut self, fields: &[Field]) -> Result<(), Misfit> {
        for field in fields {
            self.take(field)?;
        }
        if self.bytes.is_empty() {
            return Ok(());
        }
        let count = Number(self.bytes.len() as u64);
        Err((self.at, [count, Word(" bytes too many"), Word("")]))
    }
}

// Whether the fields of a kind of record are all that is left.
fn fits(version: Version, kind: u8, rest: BodyRest<'_>) -> Result<(), Misfit> {
    let (unit, queue) = (Field::Bytes(8, "unit"), Field::Bytes(4, "queue"));
    match kind {
        1 => rest.fits(&[
            Field::Bytes(2, "limit"),
            Field::Bytes(4, "error queue"),
            Field::Name,
        ]),
        2 | 3 => rest.fits(&[queue, Field::Name]),
        4 | 7 | 8 => rest.fits(&[unit]),
        5 => rest.fits(&[
            unit,
            queue,
            Field::Bytes(1, "priority"),
            Field::Who,
            Field::Payload,
        ]),
        6 => rest.fits(&[unit, queue, Field::Who]),
        9 => Ok(()),
        10 if version == Version::Two => rest.fits(&[queue, Field::Bytes(8, "element")]),
        _ => {
            let number = Number(u64::from(kind));
            Err((0, [Word("no record has the kind "), number, Word("")]))
        }
    }
}

/// Why the body spells no record of the version, and at which of its bytes that shows; none where
/// nothing is found. It is asked of bodies that spell none, and what it finds is tested.
pub(crate) fn misfit_of(version: Version, body: &[u8]) -> Option<Misfit> {
    match body {
        [] => Some((0, cut("kind"))),
        [kind, bytes @ ..] => fits(version, *kind, BodyRest { bytes, at: 1 }).err(),
    }
}
