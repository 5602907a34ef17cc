//! Laws of source files.
ghost use Rattle.jc_unit_laws.specs.UnitAnswers.{FilesAreTold};

/// A law: no two source files of at most 200 heights have the same tokens, and where no such file has them a place is told where that
/// shows.
pub fn files_are_told()
    ensures { FilesAreTold }
{}
