//! How flaws are told.
use crate::forward::add_flaw;
use crate::line::Line;
use crate::words::Words;
use cf_desired::Flaw;
use cf_eval::EvalWhy;
use cf_graph::GraphFault;
use cf_param::BindFault;

const WHYS: [(&str, EvalWhy); 9] = [
    ("UnknownName", EvalWhy::UnknownName),
    ("UnknownAttribute", EvalWhy::UnknownAttribute),
    ("UnknownMapKey", EvalWhy::UnknownMapKey),
    ("IndexOutside", EvalWhy::IndexOutside),
    ("WrongKind", EvalWhy::WrongKind),
    ("UnknownImport", EvalWhy::UnknownImport),
    ("CircularCondition", EvalWhy::CircularCondition),
    ("NotMade", EvalWhy::NotMade),
    ("TooBig", EvalWhy::TooBig),
];

/// The fault of a binding, `FAULT NAME`.
fn bind_fault(words: &mut Words) -> BindFault {
    let kind = words.word();
    let name = words.memory.text(words.rest);
    match kind {
        "Undeclared" => BindFault::Undeclared { name },
        "Missing" => BindFault::Missing { name },
        "NotANumber" => BindFault::NotANumber { name },
        "TooShort" => BindFault::TooShort { name },
        "TooLong" => BindFault::TooLong { name },
        "TooSmall" => BindFault::TooSmall { name },
        "TooLarge" => BindFault::TooLarge { name },
        "NotAllowed" => BindFault::NotAllowed { name },
        "NoMatch" => BindFault::NoMatch { name },
        _ => BindFault::BadPattern { name },
    }
}

/// The flaw of a line, `KIND ..`
fn flaw_of(words: &mut Words) -> Flaw {
    match words.word() {
        "Bind" => Flaw::Bind {
            at: words.path(),
            fault: bind_fault(words),
        },
        "Eval" => Flaw::Eval {
            why: words.one_of(&WHYS, EvalWhy::TooBig),
            stack: words.path(),
            at: words.path(),
        },
        "Circular" => Flaw::Graph {
            at: words.path(),
            fault: GraphFault::Circular {
                cycle: words.names(),
            },
        },
        "UnknownDependency" => Flaw::Graph {
            at: words.path(),
            fault: GraphFault::UnknownDependency {
                from: words.name(),
                name: words.name(),
            },
        },
        "TooMany" => Flaw::TooMany {
            count: words.number(),
        },
        kind => nested_flaw(words, kind),
    }
}

/// A flaw of nested stacks.
fn nested_flaw(words: &mut Words, kind: &str) -> Flaw {
    let path = words.path();
    match kind {
        "Shape" => Flaw::Shape { path },
        "TemplateMissing" => Flaw::TemplateMissing { name: path },
        "TooDeep" => Flaw::TooDeep { path },
        "DynamicTemplate" => Flaw::DynamicTemplate { path },
        "DynamicCondition" => Flaw::DynamicCondition {
            path,
            name: words.name(),
        },
        _ => {
            words.refuse();
            Flaw::Shape { path }
        }
    }
}

/// How the flaw of a line is told.
pub fn add_flaw_of(line: &mut Line, words: &mut Words) {
    let flaw = flaw_of(words);
    add_flaw(line, &flaw);
    drop(flaw);
}
