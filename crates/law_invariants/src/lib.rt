//! What is true of a controller whatever happened to it. Each function says so in its contract, and does nothing.
#![tactic(auto)]

ghost use Rattle.law_invariants.specs.ImageFrames.{ImagesFitFrames};
ghost use Rattle.law_invariants.specs.WorldLaws.{ClosedIsCommitted, ClosedRises, CommittedRises, ContactsAreOnce, ContactsRise, HearsWhileLeading, ImagesAreValid, KeptAreValid, NoneOpenWhileLeading};

/// The committed end never falls, whatever events come.
pub fn the_committed_end_never_falls()
    ensures { CommittedRises }
{}

/// The closed end, below which no transaction is open, never falls either, and isn't above the committed end.
pub fn the_closed_end_never_falls()
    ensures rises { ClosedRises }
    ensures committed { ClosedIsCommitted }
{}

/// After any events no transaction is open at the tip while a node leads.
pub fn leaders_decide_outside_transactions()
    ensures { NoneOpenWhileLeading }
{}

/// After any events the times never fall along the contacts, and none is later than the greatest time of any event. Each
/// broker is one contact at most, and among those that stop once at most, and as a contact.
pub fn contacts_stand_in_order()
    ensures rise { ContactsRise }
    ensures once { ContactsAreOnce }
{}

/// After any events a leader hears of the unfenced brokers of the image at the tip, and of those of them that are stopping;
/// and a node on standby of nobody.
pub fn leaders_hear_of_all_unfenced_brokers()
    ensures { HearsWhileLeading }
{}

/// After any events the log has a valid image at each place. The images that an engine keeps are valid, whatever it stands
/// for, and stand under rising places.
pub fn images_are_valid()
    ensures seen { ImagesAreValid }
    ensures kept { KeptAreValid }
{}

/// A valid image that is written, with the kind of its frame before it, has fewer than 2^32 bytes, so that its frame's size
/// field holds the size.
pub fn images_fit_frames()
    ensures { ImagesFitFrames }
{}
