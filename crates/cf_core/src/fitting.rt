//! Laws about what each entry keeps of what the journal says of its stacks. None of these functions does anything when it
//! runs.
ghost use Rattle.cf_core.specs.Fitting.{EachIsWritten, FitsKept};

/// Each stack fits after an entry that may be written, where each did before it.
pub fn fits_kept()
    ensures { FitsKept }
{}

/// So each entry is written, for every stack that is there after it.
pub fn each_is_written()
    ensures { EachIsWritten }
{}
