//! A recognizer of the first profile, which goes over the tokens from left to right and stops at the first with which
//! no file goes on.
//!
//! It knows the whole grammar and the rules on names, but that any name may stand in a specification, whose parameters
//! come behind it. So it is the reader's equal on other breaches, and tells their place, which the reader can't: the
//! reader reads a method from its heading on.

ghost use Rattle.std.specs.Prelude.{◌≡◌, IfOk};
ghost use Rattle.jesc_first.specs.Recognizing as spec;
ghost use Rattle.jesc_first.specs.Parsing.{Texts};
ghost use Rattle.jesc_first.specs.Recognized.{state_of, Steps};
ghost use Rattle.jesc_first.specs.Seen.{lexeme};

use crate::reader::lexeme::{Lexeme, is_of_kind};
use crate::reader::names::Names;
use crate::reader::phase::{Phase, Seat};
use crate::reader::transition::{
    behind_parameter, behind_part, in_body, in_class, in_parameters, in_result, in_specification,
    is_new, is_part, is_sign, is_word, to,
};
use jesc_lexer::TokenKind;
use jesc_text::OutOfMemory;
use std::alloc::Global;

/// Where it stands, the names of the methods of the class, the names in scope, whether the method returns a value, and
/// whether `\result` was told in its specification. The names of classes stand outside.
#[derive(Drop)]
pub struct Recognizer<'a> {
    pub phase: Phase,
    pub methods: Names<'a>,
    pub scope: Names<'a>,
    pub returns: bool,
    pub told: bool,
}

impl<'a> Recognizer<'a> {
    /// A recognizer that stands before a class, or at another phase.
    pub fn new(alloc: Global, phase: Phase) -> Recognizer<'a>
        ensures { (classes : Texts) → state_of result classes ≡ record (spec.start classes) { phase = phase } }
    {
        Recognizer {
            phase,
            methods: Names::new(alloc),
            scope: Names::new(alloc),
            returns: false,
            told: false,
        }
    }

    /// Whether a method comes next, if the class goes on.
    pub fn is_before_method(&self) -> bool {
        matches!(self.phase, Phase::Methods)
    }

    /// Whether a part of a sum comes next.
    pub fn is_before_part(&self) -> bool
        ensures { result ≡ spec.is_before_part self.now.phase }
    {
        matches!(self.phase, Phase::Part(_))
    }

    /// The phase behind the token; None where no file goes on with it.
    fn next(&self, found: &Lexeme<'_>, classes: &Names<'_>) -> Option<Phase>
        ensures { result ≡ spec.next self.now.phase (state_of self.now classes.now) (lexeme found.now) }
    {
        match self.phase {
            Phase::Classes => to(is_word(found, false, b"class"), Phase::ClassName),
            Phase::ClassName => to(is_new(found, classes), Phase::ClassBrace),
            Phase::ClassBrace => to(is_sign(found, false, b"{"), Phase::Methods),
            Phase::Methods => in_class(found),
            Phase::Demands => in_specification(found, true),
            Phase::Promises => in_specification(found, false),
            Phase::Part(seat) => to(is_part(found, seat, &self.scope), Phase::Behind(seat)),
            Phase::Behind(seat) => behind_part(found, seat),
            Phase::Result => in_result(found, self.told),
            Phase::MethodName => to(is_new(found, &self.methods), Phase::Opening),
            Phase::Opening => to(is_sign(found, false, b"("), Phase::FirstParameter),
            Phase::FirstParameter => in_parameters(found),
            Phase::Parameter => to(is_word(found, false, b"int"), Phase::ParameterName),
            Phase::ParameterName => to(is_new(found, &self.scope), Phase::NextParameter),
            Phase::NextParameter => behind_parameter(found),
            Phase::BodyBrace => to(is_sign(found, false, b"{"), Phase::Statement),
            Phase::Statement => in_body(found, self.returns, &self.scope),
            Phase::LocalName => to(is_new(found, &self.scope), Phase::LocalEquals),
            Phase::LocalEquals => to(is_sign(found, false, b"="), Phase::Part(Seat::Initial)),
            Phase::AssignedEquals => to(is_sign(found, false, b"="), Phase::Part(Seat::Assigned)),
            Phase::Closing => to(is_sign(found, false, b"}"), Phase::Methods),
        }
    }

    /// Keeps what the token tells.
    fn learn(&mut self, found: &Lexeme<'a>, classes: &mut Names<'a>) -> Result<(), OutOfMemory>
        ensures { IfOk result (λ _. state_of self.new classes.new ≡ spec.learned self.old.phase (state_of self.old classes.old) (lexeme found.now)) }
    {
        match self.phase {
            Phase::ClassName => {
                classes.add(found.text)?;
                self.methods.cut(0);
            }
            Phase::MethodName => {
                self.methods.add(found.text)?;
                self.scope.cut(0);
            }
            Phase::ParameterName | Phase::LocalName => {
                self.scope.add(found.text)?;
            }
            Phase::Result => {
                self.returns = is_word(found, false, b"int");
                self.told = false;
            }
            Phase::Part(_) => {
                self.told = self.told || is_of_kind(found, TokenKind::Backslash);
            }
            _ => {}
        }
        Ok(())
    }

    /// Goes on by a token, and answers whether it can.
    pub fn step(&mut self, found: &Lexeme<'a>, classes: &mut Names<'a>) -> Result<bool, OutOfMemory>
        ensures { IfOk result (λ goes. Steps (spec.step (state_of self.old classes.old) (lexeme found.now)) goes (state_of self.new classes.new)) }
    {
        let Some(phase) = self.next(found, classes) else {
            return Ok(false);
        };
        self.learn(found, classes)?;
        self.phase = phase;
        Ok(true)
    }
}
