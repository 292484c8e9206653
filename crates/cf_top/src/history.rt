//! Laws about histories of commands. None of these functions does anything when it runs.
ghost use Rattle.cf_top.specs.History.{HistoriesAgree, NewAgrees};

use cf_disk::Disk;
use cf_handler::Handler;

/// Where disk and lanes agree, they agree at each moment of every history after it, and each stack keeps what its status promises:
/// commands one after another, each over some of the lanes and with any words and answer of which all that `cfstack` says holds; crashes
/// between them; and calls that act late. So what `cfstack` promises where they agreed holds of each command of the history. A crash
/// amid a command is none of its steps: of that `any_moment` of `cfstack` says what the file then has.
pub fn histories_agree<D: Disk, H: Handler>()
    ensures { HistoriesAgree D.Disk H.Handler }
{}

/// A new journal agrees with lanes on which nothing was ever called.
pub fn new_agrees<D: Disk>()
    ensures { NewAgrees D.Disk }
{}
