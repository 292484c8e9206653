//! The order of work of a template.
use crate::evaluating::verdicts;
use crate::fault::{eval_fault, graph_fault};
use crate::told::Told;
use cf_graph::{Needs, order};
use cf_tree::{Bound, CondMap, Names, Template};

/// The resources of a template in the order of work, each with what it needs.
pub fn work_order(told: &mut Told, template: &Template, bound: &Bound) {
    match verdicts(&mut told.memory, template, bound) {
        Ok(conds) => {
            ordered(told, template, &conds);
            drop(conds);
        }
        Err(fault) => {
            eval_fault(told, &fault);
            drop(fault);
        }
    }
}

fn ordered(told: &mut Told, template: &Template, conds: &CondMap) {
    match order(told.memory.alloc, template, conds) {
        Ok(needs) => {
            in_order(told, &needs);
            drop(needs);
        }
        Err(fault) => {
            graph_fault(told, &fault);
            drop(fault);
        }
    }
}

fn in_order(told: &mut Told, needs: &Needs) {
    let mut first = true;
    for (name, names) in needs.iter() {
        if !first {
            told.put(", ");
        }
        told.put(name.as_str());
        push_needs(told, names);
        first = false;
    }
    if first {
        told.put("nothing");
    }
}

fn push_needs(told: &mut Told, names: &Names) {
    if !names.is_empty() {
        told.put(":");
    }
    for name in names.as_slice() {
        told.word(name.as_str());
    }
}
