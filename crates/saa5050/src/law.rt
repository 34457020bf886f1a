//! A row by the list of its codes.
ghost use Rattle.saa5050.specs.Laws.{OneCodeMore, DoubleIsAmongCodes};

/// States that a row's state is a fold over its codes: one more code is one more step. The row has
/// a double-height code if one of its codes is 0D.
pub fn row_is_fold()
    ensures more { OneCodeMore }
    ensures double { DoubleIsAmongCodes }
{}
