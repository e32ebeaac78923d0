//! Which numbers are counted.
ghost use Rattle.json_losses.specs.Laws.{CountsNulls};

/// A number of JSON is counted, once, exactly where its dynamic value is null.
pub fn counted_numbers()
    ensures nulls { CountsNulls }
{}
