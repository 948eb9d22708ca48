//! What the published messages make of a board.

ghost use Rattle.std.specs.Prelude.{◌≡◌, ℕ, List, Some, slice_get};
ghost use Rattle.price_core.specs.declared.quote.Side.TheVariants.{Low, High};
ghost use Rattle.board_core.specs.declared.shown.Edge.{Edge};
ghost use Rattle.board_core.specs.declared.entry.Entry.TheVariants.{Band};
ghost use Rattle.board_core.specs.OfSymbol.{BandsEntry, bands_entries, IsVersionOf, HasLastVersions};
ghost use Rattle.wire_out.specs.declared.message.Message.{Message};
ghost use Rattle.board_core.specs.declared.entry.Entry.{Entry};
ghost use Rattle.board_core.specs.Entries.{word_of, version_of, first_of, latest, board_entries, IsEntry, VersionsAtMost, messages_of};
ghost use Rattle.board_core.specs.Views.{IsNotAfter};

/// No word of a symbol has a higher version than messages of the symbol were published. It does nothing.
pub fn versions_count_messages()
    ensures { (symbol : ℕ) (published : List Message) → VersionsAtMost (messages_of symbol published) (board_entries published) symbol }
{}

/// A word has one entry of each version. It does nothing.
pub fn one_entry_a_version()
    ensures { (published : List Message) (a b : Entry) → IsEntry a (board_entries published) → IsEntry b (board_entries published) → word_of a ≡ word_of b → version_of a ≡ version_of b → a ≡ b }
{}

/// What a reader is answered that was told of all that was published is the latest entry. It does nothing.
pub fn told_of_all()
    ensures { (published : List Message) (answer : Entry) → IsEntry answer (board_entries published) → ((told : Entry) → IsEntry told (board_entries published) → IsNotAfter answer told) → answer ≡ latest (first_of answer) (board_entries published) }
{}

/// The entries of a symbol's words are those that the messages of the symbol make, in order, each with its place as its
/// version. It does nothing.
pub fn entries_count_from_zero()
    ensures each { (published : List Message) (entry : Entry) → IsEntry entry (board_entries published) → IsVersionOf published entry }
    ensures last { (published : List Message) (symbol : ℕ) → HasLastVersions published symbol }
{}

/// Two edges of one symbol and one version are the two sides of one bands entry. It does nothing.
pub fn sides_of_one_entry()
    ensures { (published : List Message) (symbol : ℕ) (low high : Edge) → IsEntry (Band symbol Low low) (board_entries published) → IsEntry (Band symbol High high) (board_entries published) → low.version ≡ high.version
        → (bands : BandsEntry) × (slice_get (bands_entries symbol published) low.version ≡ Some bands) × (low.price ≡ bands.lower) × (high.price ≡ bands.upper) }
{}
