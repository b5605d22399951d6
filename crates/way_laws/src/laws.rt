//! Where what has to be true of a way into a value is true, there is such a part, and another one can stand in its place.
ghost use Rattle.way_laws.specs.Laws.{FieldsAreThere, ItemsAreThere, SlicesAreThere};

/// Bits have a bit, and a vector has an item, at each index for which what the walk owes is true. It is of the type that the walk says, and with
/// another one of that type there the value has the same indices.
pub fn items_are_there()
    ensures { ItemsAreThere }
{}

/// Bits have a slice between two indexes for which what the walk owes is true, as wide as the walk says, and with another one that is as wide
/// there they have the same indices.
pub fn slices_are_there()
    ensures { SlicesAreThere }
{}

/// A struct has each of its fields, of the type that the walk says, and with another value of that type there it has the same indices, where
/// the field's type names no Type variables but the struct's.
pub fn fields_are_there()
    ensures { FieldsAreThere }
{}
