//! The searches that a query takes.

ghost use Rattle.std.specs.Prelude.{◌≡◌, ◌++◌, [], IsOk, OnOk, IfErr};
ghost use Rattle.sql_lang.specs.View.{test_view, expr_view, exprs_view};
ghost use Rattle.sql_eval.specs.Searches.{test_patterns, patterns_in, all_patterns};

use crate::finders::Finders;
use sig_base::Fault;
use sql_lang::{Expr, SqlTest};
use std::alloc::Global;

fn gather_test<'q>(alloc: Global, test: &'q SqlTest, finders: &mut Finders<'q>) -> Result<(), Fault>
    ensures ok { OnOk result (finders.new.texts ≡ finders.old.texts ++ test_patterns (test_view test.now)) }
    ensures err { IfErr result (λ e. e ≡ Fault.Memory) }
    ensures free { test_patterns (test_view test.now) ≡ [] → IsOk result }
{
    match test {
        SqlTest::Regexp { search, .. } => finders.push(alloc, search),
        _ => Ok(()),
    }
}

/// Adds the searches with the regular expressions of an expression behind those that are there; only want of memory is answered,
/// and only where there is a regular expression.
#[cycle(gathering)]
pub fn gather<'q>(alloc: Global, expr: &'q Expr, finders: &mut Finders<'q>) -> Result<(), Fault>
    ensures ok { OnOk result (finders.new.texts ≡ finders.old.texts ++ patterns_in (expr_view expr.now)) }
    ensures err { IfErr result (λ e. e ≡ Fault.Memory) }
    ensures free { patterns_in (expr_view expr.now) ≡ [] → IsOk result }
{
    match expr {
        Expr::Or(parts) => gather_all(alloc, parts, finders),
        Expr::And(parts) => gather_all(alloc, parts, finders),
        Expr::Not(part) => gather(alloc, part, finders),
        Expr::Test(test) => gather_test(alloc, test, finders),
    }
}

#[cycle(gathering)]
fn gather_all<'q>(alloc: Global, parts: &'q [Expr], finders: &mut Finders<'q>) -> Result<(), Fault>
    ensures ok { OnOk result (finders.new.texts ≡ finders.old.texts ++ all_patterns (exprs_view parts.now)) }
    ensures err { IfErr result (λ e. e ≡ Fault.Memory) }
    ensures free { all_patterns (exprs_view parts.now) ≡ [] → IsOk result }
{
    for part in parts {
        gather(alloc, part, finders)?;
    }
    Ok(())
}
