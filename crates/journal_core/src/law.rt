//! Laws of images.

ghost use Rattle.journal_core.specs.Laws.{HasOneStart, HoldsOneList, IsReadable};

/// An image holds at most one list of records, under one capacity and in one way.
pub fn an_image_holds_one_list()
    ensures { HoldsOneList }
{}

/// A disk that holds a list has a header and no damage, and a scan that has come to its end has handed out that list, but for what
/// stands before its last base.
pub fn a_held_list_is_read()
    ensures { IsReadable }
{}

/// All scans of a disk begin behind one base, or none begins, for damage at one offset.
pub fn a_journal_has_one_start()
    ensures { HasOneStart }
{}
