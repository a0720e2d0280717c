//! What is said of things by their numbers: names beside them, and links to where more stands.

use crate::lives::Lives;
use crate::markup::Html;
use rq_record::QueueNo;
use rq_state::Definition;

// Of a log of more records the lives of all are never shown.
const ALL: u64 = 10_000;

/// As many queues are shown.
pub(crate) const QUEUES: usize = 1000;

/// What a number names that a page may show.
#[derive(Clone, Copy)]
pub(crate) enum Linkable {
    /// The life of an element.
    Element,
    /// The life of a unit.
    Unit,
    /// A record that has to do with those whose lives are shown.
    Record,
}

/// Which things a page shows, by which it is known what a link leads to.
#[derive(Clone, Copy)]
pub(crate) struct Linked<'a> {
    /// The queues as they were defined.
    pub(crate) definitions: &'a [Definition],
    /// Whether the lives of all are shown.
    pub(crate) all: bool,
    /// The elements that were asked for.
    pub(crate) elements: &'a [u64],
    /// The units that were asked for.
    pub(crate) units: &'a [u64],
    /// The lives that stand on the page, once they are gathered.
    pub(crate) lives: Option<&'a Lives>,
}

impl<'a> Linked<'a> {
    /// What is shown of a log of so many records, with the elements and units that were asked for.
    pub(crate) fn of(
        definitions: &'a [Definition],
        elements: &'a [u64],
        units: &'a [u64],
        records: u64,
    ) -> Linked<'a> {
        Linked {
            definitions,
            all: records <= ALL,
            elements,
            units,
            lives: None,
        }
    }

    /// Whether nobody's life is shown.
    pub(crate) fn is_nobody(&self) -> bool {
        !self.all && self.elements.is_empty() && self.units.is_empty()
    }

    /// Whether the page shows what a number names. Of a log that was carried on there may be elements
    /// to which nothing happens.
    pub(crate) fn shows(&self, kind: Linkable, number: u64) -> bool {
        match (kind, self.lives) {
            (Linkable::Element, Some(lives)) => lives.elements.contains_key(&number),
            (Linkable::Element, None) => self.all || self.elements.contains(&number),
            (Linkable::Unit, Some(lives)) => lives.units.contains_key(&number),
            (Linkable::Unit, None) => self.all || self.units.contains(&number),
            (Linkable::Record, Some(lives)) => number < lives.until.unwrap_or(u64::MAX),
            (Linkable::Record, None) => true,
        }
    }

    // Whether the life of a registrant is shown.
    fn has_registrant(&self, queue: u32, name: &str) -> bool {
        match self.lives {
            Some(lives) => lives.has_registrant(queue, name),
            None => self.all,
        }
    }

    // The name of a queue; none if there is no such queue.
    fn name_of(&self, queue: u32) -> &'a str {
        match self.definitions.get(queue as usize) {
            Some(definition) => definition.name.text(),
            None => "",
        }
    }

    /// A queue by its number and its name.
    pub(crate) fn queue_link(&self, queue: u32) -> Html<'a> {
        let name = self.name_of(queue);
        if self.definitions.len() > QUEUES {
            Html::Named(queue, name)
        } else {
            Html::Queue(queue, name)
        }
    }

    /// An error queue, or a dash for none.
    pub(crate) fn error_link(&self, error: QueueNo) -> Html<'a> {
        if error == QueueNo::NONE {
            Html::Tag("-")
        } else {
            self.queue_link(error.0)
        }
    }

    /// What a number names, with a link to it if that is shown.
    pub(crate) fn link(&self, kind: Linkable, number: u64) -> Html<'static> {
        if !self.shows(kind, number) {
            return Html::Number(number);
        }
        match kind {
            Linkable::Element => Html::Link("e", number),
            Linkable::Unit => Html::Link("u", number),
            Linkable::Record => Html::Link("r", number),
        }
    }

    /// A registrant of a queue by its name.
    pub(crate) fn registrant_link<'b>(&self, queue: u32, name: &'b str) -> Html<'b> {
        if self.has_registrant(queue, name) {
            Html::Registrant(queue, name)
        } else {
            Html::Text(name)
        }
    }
}
