// What steps do to the consumers of the change log.
ghost use Rattle.std.specs.Prelude.{◌≡◌, ℕ, List, IfOk, OnOk, filter_map};
ghost use Rattle.reg_log.specs.Places.{place_of};
ghost use Rattle.reg_audit.specs.Consumers.{consumer_note, place_after, places_after};

use reg_base::Text;
use reg_log::Places;
use reg_terms::Event;
use std::alloc::{AllocError, Global};

/// What a step does to a consumer: it is added with a place, or one that is there has read up to a
/// number.
#[derive(Drop)]
pub struct ConsumerNote {
    pub name: Text,
    pub place: u64,
    pub is_new: bool,
}

/// What an event does to a consumer, if it does something.
fn consumer_note(alloc: Global, event: &Event) -> Result<Option<ConsumerNote>, AllocError>
    ensures { IfOk result (λ note. note ≡ consumer_note event.now) }
{
    match event {
        Event::ConsumerAdded { row } => Ok(Some(ConsumerNote {
            name: row.name.copy(alloc)?,
            place: row.place,
            is_new: true,
        })),
        Event::ConsumerAcked { consumer, seq } => Ok(Some(ConsumerNote {
            name: consumer.copy(alloc)?,
            place: *seq,
            is_new: false,
        })),
        _ => Ok(None),
    }
}

/// What events do to consumers.
pub(crate) fn consumer_notes(
    alloc: Global,
    events: &[Event],
) -> Result<Vec<ConsumerNote>, AllocError>
    ensures { IfOk result (λ notes. notes.items ≡ filter_map consumer_note events.now) }
{
    let mut notes = Vec::new(alloc);
    for event in events {
        if let Some(note) = consumer_note(alloc, event)? {
            notes.push(note)?;
        }
    }
    Ok(notes)
}

/// The places after this was done to a consumer.
fn note_consumer(places: &mut Places, note: &ConsumerNote) -> Result<(), AllocError>
    ensures { OnOk result ((n : List ℕ)
        → place_of places.new n ≡ place_after n (place_of places.old n) note.now) }
{
    let name = note.name.bytes();
    if note.is_new {
        if places.place(name).is_some() {
            return Ok(());
        }
        places.add(name)?;
    }
    places.set(name, note.place);
    Ok(())
}

/// The places after this was done to consumers, one after another.
pub(crate) fn note_consumers(places: &mut Places, notes: &[ConsumerNote]) -> Result<(), AllocError>
    ensures { OnOk result ((n : List ℕ)
        → place_of places.new n ≡ places_after n (place_of places.old n) notes.now) }
{
    for note in notes {
        note_consumer(places, note)?;
    }
    Ok(())
}
