//! Laws of audited journals. The functions do nothing: a caller learns the law.
ghost use Rattle.audit_core.specs.Confirmed.{AreGood};
ghost use Rattle.audit_core.specs.Laws.{IsNeverBoth, IsOneRefusal, IsOneRenewal, IsOwnRenewal, AreRightSections, AreRightAnswers, AddsRight};

use journal_text::refuted_sections;
use lattice_grid::laws::starts;
use path_meaning::laws::plainly;

/// What an audited journal shows, whoever wrote it: each of its answers is good.
pub fn good_answers()
    ensures { AreGood }
{
    refuted_sections();
    starts();
    plainly();
}

/// A journal that is audited has no refusal, and one that has a refusal has no other.
pub fn one_audit()
    ensures either { IsNeverBoth }
    ensures one { IsOneRefusal }
{}

/// A journal that is right for a PLA is made anew in one way, and one of version 2 stays as it is.
pub fn one_renewal()
    ensures one { IsOneRenewal }
    ensures own { IsOwnRenewal }
{}

/// What is shown of sections and answers where they are written makes them right.
pub fn right_where_shown()
    ensures sections { AreRightSections }
    ensures answers { AreRightAnswers }
    ensures adds { AddsRight }
{
    plainly();
}
