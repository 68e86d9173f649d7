//! All that is said of a design.
ghost use Rattle.std.specs.Prelude.{◌≡◌, ◌++◌, length, IfOk, OnOk};
ghost use Rattle.bd_model.specs.DesignView.{design_view};
ghost use Rattle.bd_model.specs.Lawful.{IsLawful};
ghost use Rattle.bd_about.specs.Applications.{AreApplications};
ghost use Rattle.bd_about.specs.Findings.{AreFindings};
ghost use Rattle.bd_about.specs.AllLines.{about_lines, all_finding_lines};
ghost use Rattle.bd_about.specs.Conjuncts.{AreConjuncts};
ghost use Rattle.bd_about.specs.Lines.{first_lines};
ghost use Rattle.bd_about.specs.Unread.{IsUnread};

use crate::application_lines::push_applications;
use crate::asking::{Finding, Findings, findings_of, found};
use crate::conjuncts::{on_conjuncts, push_conjuncts};
use crate::counting::{Applications, applications_of};
use crate::lines::push_findings;
use crate::part_lines::parts_of;
use crate::unread::{Unread, unread_of};
use crate::unread_lines::{LetNames, push_unread};
use bd_model::Design;
use std::alloc::{AllocError, Global};

/// What is found of a design, and without each conjunct of its invariant.
#[derive(Drop)]
pub struct AllFindings {
    pub findings: Findings,
    pub without: Vec<Finding>,
}

/// What is counted of functions and predicates, what nothing reads, what is found, and all as lines.
#[derive(Drop)]
pub struct About {
    pub applications: Applications,
    pub unread: Unread,
    pub found: AllFindings,
    pub text: Vec<u8>,
}

/// The lines on a design that stand before what is found of it.
fn first_lines(
    alloc: Global,
    design: &Design,
    names: LetNames<'_>,
    applications: &Applications,
    unread: &Unread,
) -> Result<Vec<u8>, AllocError>
    requires applied { length applications.now.applied ≡ length (design_view design.now).symbols }
    requires compared { length applications.now.compared
        ≡ length (design_view design.now).symbols }
    ensures { IfOk result (λ text. text.items
        ≡ first_lines (design_view design.now) names.entry applications.now unread.now) }
{
    let mut text = parts_of(alloc, design)?;
    push_applications(&mut text, design, applications)?;
    push_unread(&mut text, design, names, unread)?;
    Ok(text)
}

/// What is found of a lawful design, with an invariant or without one, also without each conjunct of it.
fn all_findings(alloc: Global, design: Design, given: bool) -> Result<AllFindings, AllocError>
    requires { IsLawful (design_view design) }
    ensures findings { IfOk result (λ r. AreFindings (design_view design) given r.findings) }
    ensures without { IfOk result (λ r.
        AreConjuncts (design_view design) given r.findings.own r.without.items) }
{
    let own = found(alloc, &design, given)?;
    let (without, design) = on_conjuncts(alloc, design, given, own)?;
    Ok(AllFindings {
        findings: findings_of(alloc, design, given, own)?,
        without,
    })
}

/// Puts the lines of all that is found after a text.
fn push_all_findings(out: &mut Vec<u8>, found: &AllFindings) -> Result<(), AllocError>
    ensures { OnOk result (out.new.items
        ≡ out.old.items ++ all_finding_lines found.now.findings found.now.without.items) }
{
    push_findings(out, &found.findings)?;
    push_conjuncts(out, found.without.as_slice())
}

/// What is said of a lawful design, with an invariant or without one.
pub fn about_design(
    alloc: Global,
    design: Design,
    names: LetNames<'_>,
    given: bool,
) -> Result<About, AllocError>
    requires { IsLawful (design_view design) }
    ensures applications { IfOk result (λ a.
        AreApplications (design_view design) a.applications) }
    ensures unread { IfOk result (λ a. IsUnread (design_view design) a.unread) }
    ensures findings { IfOk result (λ a.
        AreFindings (design_view design) given a.found.findings) }
    ensures without { IfOk result (λ a.
        AreConjuncts (design_view design) given a.found.findings.own a.found.without.items) }
    ensures lines { IfOk result (λ a. a.text.items ≡ about_lines (design_view design)
        names.entry a.applications a.unread a.found.findings a.found.without.items) }
{
    let applications = applications_of(alloc, &design)?;
    let unread = unread_of(alloc, &design)?;
    let mut text = first_lines(alloc, &design, names, &applications, &unread)?;
    let found = all_findings(alloc, design, given)?;
    push_all_findings(&mut text, &found)?;
    Ok(About {
        applications,
        unread,
        found,
        text,
    })
}
