//! Arguments and their parameters.

ghost use Rattle.std.specs.Prelude.{◌≤◌, map, Ok};
ghost use Rattle.std.specs.List.{All};
ghost use Rattle.jesc_ast.specs.Expressions.{span_of};
ghost use Rattle.jesc_ast.specs.Trees as ast;
ghost use Rattle.jesc_classes.specs.Answers.{Answers};
ghost use Rattle.jesc_references.specs.Calls as spec;
ghost use Rattle.jesc_sites.specs.Sites.{IsSetting, IsType, setting};
ghost use Rattle.jesc_tree.specs.Trees.{view};

use jesc_ast::Expr;
use jesc_classes::{Rule, RuleError};
use jesc_operands::fits;
use jesc_sites::{Site, refuse_in};
use jesc_tree::{Param, TExpr};
use std::alloc::Global;

/// Whether each argument fits its parameter (JLS 5.3); `trees` are the arguments as they are written.
///
/// Refused by Y1 at the first that doesn't.
pub fn arguments_fit(
    alloc: Global,
    site: &Site<'_>,
    args: &[TExpr],
    params: &[Param],
    trees: &[Expr],
) -> Result<(), RuleError>
    requires setting { IsSetting (setting site.now) }
    requires types { All (λ x. IsType (setting site.now) x.ty) args.now }
    requires trees { All (λ e. (span_of (ast.view e)).from ≤ 1048576) trees.now }
    ensures { Answers result (spec.arguments_fit (setting site.now).classes (setting site.now).lines (map view args.now) params.now (map ast.view trees.now)) }
{
    for (i, arg) in args.iter().enumerate() {
        if i >= params.len() {
            return Ok(());
        }
        if i >= trees.len() {
            return Ok(());
        }
        argument_fits(alloc, site, arg, &params[i], &trees[i])?;
    }
    Ok(())
}

/// Whether the argument fits its parameter.
fn argument_fits(
    alloc: Global,
    site: &Site<'_>,
    arg: &TExpr,
    param: &Param,
    tree: &Expr,
) -> Result<(), RuleError>
    requires setting { IsSetting (setting site.now) }
    requires ty { IsType (setting site.now) arg.now.ty }
    requires tree { (span_of (ast.view tree.now)).from ≤ 1048576 }
    ensures { Answers result (spec.argument_fits (setting site.now).classes (setting site.now).lines (view arg.now) param.now (ast.view tree.now) (Ok tt)) }
{
    if fits(alloc, site.names.program, arg.ty, param.ty)? {
        return Ok(());
    }
    Err(refuse_in(alloc, Rule::Y1, site.lines, tree)?)
}
