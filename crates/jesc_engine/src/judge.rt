//! The judgements on a program: for each duty of each class its name and the findings on its checks.

ghost use Rattle.std.specs.Prelude.{◌≡◌, ◌++◌, [], ◌∷◌, List as Items, IfOk, OnOk};
ghost use Rattle.jesc_first.specs.Accepted.{constructor_of as generated};
ghost use Rattle.jesc_engine.specs.Report.{duty_text};
ghost use Rattle.jesc_engine.specs.Findings.{AreFindings};
ghost use Rattle.jesc_engine.specs.Judged.{Duty, duty_of, class_duties, all_duties, AreJudgements};
ghost use Rattle.jesc_engine.specs.Files.{AreJudgedFiles};

use crate::answer::Judgement;
use crate::file::{ClassFile, JudgedFile};
use crate::findings::findings;
use crate::report::duty_name;
use jesc_first::{Class, Method};
use jesc_text::{List, OutOfMemory, Text};
use std::alloc::Global;

/// The constructor of a class that writes none.
fn constructor_of(alloc: Global, class: &Class) -> Result<Method, OutOfMemory>
    ensures { IfOk result (λ method. method ≡ generated class.now) }
{
    let mut name = Text::new(alloc);
    name.append(class.name.as_slice())?;
    Ok(Method {
        name,
        demands: List::new(alloc),
        promises: List::new(alloc),
        parameters: List::new(alloc),
        body: List::new(alloc),
        value: None,
        exit: 0,
    })
}

/// The judgement on one duty of a class of this name.
fn judge(alloc: Global, class: &[u8], method: &Method) -> Result<Judgement, OutOfMemory>
    ensures duty { IfOk result (λ judgement. judgement.duty ≡ duty_text class.now method.now) }
    ensures findings { IfOk result (λ judgement. AreFindings method.now judgement.findings) }
{
    let duty = duty_name(alloc, class, method)?;
    let findings = findings(alloc, method)?;
    Ok(Judgement { duty, findings })
}

/// Adds the judgement on a duty of a class of this name.
fn judge_next(
    alloc: Global,
    class: &[u8],
    method: &Method,
    judgements: &mut List<Judgement>,
) -> Result<(), OutOfMemory>
    ensures { OnOk result ((before : Items Duty) → AreJudgements before judgements.old → AreJudgements (before ++ duty_of class.now method.now ∷ []) judgements.new) }
{
    judgements.push(judge(alloc, class, method)?)?;
    Ok(())
}

/// Adds the judgements on all duties of a class: first its constructor, and then its methods in order.
fn judge_class(
    alloc: Global,
    class: &Class,
    judgements: &mut List<Judgement>,
) -> Result<(), OutOfMemory>
    ensures { OnOk result ((before : Items Duty) → AreJudgements before judgements.old → AreJudgements (before ++ class_duties class.now) judgements.new) }
{
    let name = class.name.as_slice();
    let constructor = constructor_of(alloc, class)?;
    judge_next(alloc, name, &constructor, judgements)?;
    for method in class.methods.as_slice() {
        judge_next(alloc, name, method, judgements)?;
    }
    Ok(())
}

/// The judgements on all duties of these classes, in order.
fn judge_classes(alloc: Global, classes: &[Class]) -> Result<List<Judgement>, OutOfMemory>
    ensures { IfOk result (λ judgements. AreJudgements (all_duties classes.now) judgements) }
{
    let mut judgements = List::new(alloc);
    for class in classes {
        judge_class(alloc, class, &mut judgements)?;
    }
    Ok(judgements)
}

/// The judgements on all files, in order.
pub(crate) fn judge_all<'a, 'b>(
    alloc: Global,
    files: &[ClassFile<'a, 'b>],
) -> Result<List<JudgedFile<'a, 'b>>, OutOfMemory>
    ensures { IfOk result (λ judged. AreJudgedFiles files.now judged) }
{
    let mut judged = List::new(alloc);
    for file in files {
        let judgements = judge_classes(alloc, file.classes.as_slice())?;
        judged.push(JudgedFile {
            source: file.source,
            judgements,
        })?;
    }
    Ok(judged)
}
