//! What is found in a script that is accepted.
#![tactic(auto, using(crate::proofs::Walking::walking))]

ghost use Rattle.std.specs.Prelude.{◌≡◌, IfOk, IfErr};
ghost use Rattle.el_check.specs.Checks.{IsCheckFault};
ghost use Rattle.el_lint.specs.Findings.{script_findings, AreFindings};
ghost use Rattle.el_lint.specs.Walks.{AreFoundIn};

use crate::allowance::allowances_of;
use crate::context::Context;
use crate::finding::Finding;
use crate::keys::{keys_in, risked_in};
use crate::known::KnownNames;
use crate::walk::{Script, Walk};
use el_check::{CheckFault, Params, check};
use el_lex::{Tokens, lex};
use el_tree::Tree;
use el_words::NoMemory;
use std::alloc::Global;

/// What is found in `script`, in the order of its programs, its directives and its commands; or its first fault, as
/// `el_check::check` finds it.
///
/// `CheckKind::NoMemory` may come at any script. The rules are this project's own.
pub fn find(alloc: Global, params: Params, script: &[u8]) -> Result<Vec<Finding>, CheckFault>
    ensures ok { IfOk result (λ findings. AreFindings params script.now findings.items) }
    ensures fault { IfErr result (IsCheckFault params script.now) }
{
    let tree = check(alloc, params, script)?;
    Ok(findings_in(alloc, params, script, &tree)?)
}

// What is found in the tree of an accepted script. It lexes, so that only memory can be wanting.
fn findings_in(
    alloc: Global,
    params: Params,
    script: &[u8],
    tree: &Tree,
) -> Result<Vec<Finding>, NoMemory>
    ensures { IfOk result (λ findings. AreFoundIn params script.now tree.now findings.items) }
{
    let Ok(tokens) = lex(alloc, script) else {
        return Err(NoMemory);
    };
    walked(alloc, params, script, &tokens, tree)
}

// What is found on a walk through the tree of a script with these tokens.
fn walked(
    alloc: Global,
    params: Params,
    script: &[u8],
    tokens: &Tokens,
    tree: &Tree,
) -> Result<Vec<Finding>, NoMemory>
    ensures { IfOk result (λ findings. findings.items ≡ script_findings params script.now tokens.now tree.now) }
{
    let used = keys_in(alloc, tokens)?;
    let risked = risked_in(alloc, tokens)?;
    let allowances = allowances_of(alloc, script)?;
    let mut walk = Walk {
        at: 0,
        known: KnownNames::first(alloc, params),
        findings: Vec::new(alloc),
    };
    let script = Script {
        tokens,
        used: &used,
        risked: &risked,
        allowances: &allowances,
    };
    script.tree(alloc, Context::first(), tree, &mut walk)?;
    Ok(walk.findings)
}
