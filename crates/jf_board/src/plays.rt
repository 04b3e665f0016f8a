// What each step on the table tells the seat that takes it.
ghost use Rattle.jf_board.specs.Steps.{TakesNumber, AnnouncesVersion, LoadsGate, WithdrawsVersion, gate_raised, LoadsPinWord, cut_made, LearnsOfJoined, joined_for_scan, joined_for_good, parted_view, last_joined};

use crate::views::View;
use atomic_table::{Join, Play, Split};

pub(crate) struct Number;

impl Play<(), View> for Number {
    ghost then = { TakesNumber };
}

pub(crate) struct Announce;

impl Play<(), View> for Announce {
    ghost then = { AnnouncesVersion };
}

pub(crate) struct Confirm;

impl Play<(), View> for Confirm {
    ghost then = { LoadsGate };
}

pub(crate) struct Withdraw;

impl Play<(), View> for Withdraw {
    ghost then = { WithdrawsVersion };
}

pub(crate) struct Raise;

impl Play<(), View> for Raise {
    ghost then = { gate_raised };
}

pub(crate) struct Scan;

impl Play<(), View> for Scan {
    ghost then = { LoadsPinWord };
}

pub(crate) struct Cut;

impl Play<(), View> for Cut {
    ghost then = { cut_made };
}

pub(crate) struct Learn;

impl Play<(), View> for Learn {
    ghost then = { LearnsOfJoined };
}

// The view of a place goes to a new seat.
pub(crate) struct Lend;

impl Split<View> for Lend {
    ghost use Rattle.jf_board.specs.declared.views.View.TheVariants.{Spent};

    ghost left = { λ _. Spent };

    ghost right = { λ v. v };
}

pub(crate) struct JoinForScan;

impl Join<View> for JoinForScan {
    ghost use Rattle.jf_board.specs.declared.views.View.TheVariants.{Spent};

    ghost both = { joined_for_scan };

    ghost spent = { Spent };
}

pub(crate) struct JoinForGood;

impl Join<View> for JoinForGood {
    ghost use Rattle.jf_board.specs.declared.views.View.TheVariants.{Spent};

    ghost both = { joined_for_good };

    ghost spent = { Spent };
}

// The place that joined last parts from the pruner.
pub(crate) struct Part;

impl Split<View> for Part {
    ghost left = { parted_view };

    ghost right = { last_joined };
}
