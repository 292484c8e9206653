//! What conditions and expressions come to.
//!
//! What is seen of the world stands in the template's own resources, all but `X`, by their types, as `docs/TABLES.md` says.
use crate::fault::eval_fault;
use crate::heading::Kind;
use crate::json::{push_object, push_value};
use crate::told::Told;
use cf_eval::{Env, EvalFault, Got, OutputSight, SeenAt, Sight, Sights, conditions, eval};
use cf_rows::Memory;
use cf_template::read_template;
use cf_tree::{
    Bound, ByName, CondMap, Dict, Expr, ExprDict, Mappings, Pairs, Res, Template, Txt, Val, Vals,
    Verdict,
};
use std::alloc::Global;

/// A root of which no resource is seen.
#[derive(Drop)]
struct Blank {
    made: ByName<bool>,
    seen: ByName<SeenAt>,
    stack: Txt,
}

impl Blank {
    fn new(memory: &mut Memory) -> Blank {
        Blank {
            made: ByName::new(memory.alloc),
            seen: ByName::new(memory.alloc),
            stack: memory.text(""),
        }
    }
}

/// What an evaluation looks into.
#[derive(Drop)]
struct World<'a> {
    conds: CondMap,
    sights: Sights<'a>,
    imports: Pairs,
    pseudo: Dict,
    stack: &'a Txt,
}

impl<'a> World<'a> {
    fn new(memory: &mut Memory, conds: CondMap, blank: &'a Blank) -> World<'a> {
        World {
            conds,
            sights: Sights::new(memory.alloc, &blank.made, &blank.stack, &blank.seen),
            imports: Pairs::new(memory.alloc),
            pseudo: pseudo(memory),
            stack: &blank.stack,
        }
    }

    fn env<'b>(&'b self, bound: &'b Bound, mappings: &'b Mappings) -> Env<'b> {
        Env {
            bound,
            mappings,
            conds: &self.conds,
            seen: &self.sights,
            imports: &self.imports,
            pseudo: &self.pseudo,
            stack: self.stack,
        }
    }
}

/// The pseudo parameters of the stack `app`, which operation 7 made, but the list of them.
const PSEUDO: [(&str, &str); 6] = [
    ("AWS::AccountId", "123456789012"),
    ("AWS::Partition", "aws"),
    ("AWS::Region", "us-east-1"),
    (
        "AWS::StackId",
        "arn:aws:cloudformation:us-east-1:123456789012:stack/app/7",
    ),
    ("AWS::StackName", "app"),
    ("AWS::URLSuffix", "amazonaws.com"),
];

fn pseudo(memory: &mut Memory) -> Dict {
    let mut values = Dict::new(memory.alloc);
    for (name, text) in PSEUDO {
        let name = memory.text(name);
        let text = Val::Text(memory.text(text));
        memory.note(values.insert(name, text).is_err());
    }
    let name = memory.text("AWS::NotificationARNs");
    let none = Val::List(Vals::new(memory.alloc));
    memory.note(values.insert(name, none).is_err());
    values
}

/// What each condition is.
pub fn verdicts(
    memory: &mut Memory,
    template: &Template,
    bound: &Bound,
) -> Result<CondMap, EvalFault> {
    let pseudo = pseudo(memory);
    let stack = memory.text("");
    let conds = conditions(memory.alloc, template, bound, &pseudo, &stack);
    drop(pseudo);
    drop(stack);
    conds
}

/// What the condition `X` is, the property `x` of the resource `X`, or all properties of `X`.
pub fn evaluated(told: &mut Told, kind: Kind, template: &Template, bound: &Bound) {
    match verdicts(&mut told.memory, template, bound) {
        Ok(conds) => {
            let blank = Blank::new(&mut told.memory);
            let mut world = World::new(&mut told.memory, conds, &blank);
            told_over(told, kind, template, bound, &mut world);
            drop(world);
            drop(blank);
        }
        Err(fault) => {
            eval_fault(told, &fault);
            drop(fault);
        }
    }
}

fn told_over(told: &mut Told, kind: Kind, template: &Template, bound: &Bound, world: &mut World) {
    if kind == Kind::Condition {
        told.put(verdict_word(world.conds.get("X")));
    } else {
        see(&mut told.memory, template, bound, world);
        match template.resources.find("X") {
            Some(resource) => {
                let env = world.env(bound, &template.mappings);
                told_in(told, kind, &resource.props, &env);
            }
            None => told.put("no resource X"),
        }
    }
}

fn verdict_word(verdict: Option<&Verdict>) -> &'static str {
    match verdict {
        Some(Verdict::True) => "true",
        Some(Verdict::False) => "false",
        Some(Verdict::Later) => "Later",
        None => "no condition X",
    }
}

fn told_in(told: &mut Told, kind: Kind, props: &ExprDict, env: &Env) {
    if kind == Kind::Properties {
        worths(told, props, env);
    } else {
        property(told, props, env);
    }
}

/// What the property `x` comes to.
fn property(told: &mut Told, props: &ExprDict, env: &Env) {
    for pair in props.as_slice() {
        if pair.name.is("x") {
            return worth(told, &pair.value, env);
        }
    }
    told.put("no property x of X");
}

fn worth(told: &mut Told, expr: &Expr, env: &Env) {
    match eval(told.memory.alloc, expr, env) {
        Ok(Got::Value(value)) => {
            push_value(told, &value);
            drop(value);
        }
        Ok(Got::NoValue) => told.put("NoValue"),
        Ok(Got::Later) => told.put("Later"),
        Err(fault) => {
            eval_fault(told, &fault);
            drop(fault);
        }
    }
}

fn worths(told: &mut Told, props: &ExprDict, env: &Env) {
    match object_by(told.memory.alloc, props, env) {
        Ok(Some(object)) => {
            push_object(told, &object);
            drop(object);
        }
        Ok(None) => told.put("Later"),
        Err(fault) => {
            eval_fault(told, &fault);
            drop(fault);
        }
    }
}

/// What an object of expressions comes to: a member that is `AWS::NoValue` is left out, and the whole is `None` where a member is
/// Later.
fn object_by(alloc: Global, props: &ExprDict, env: &Env) -> Result<Option<Dict>, EvalFault> {
    let mut object = Dict::new(alloc);
    let mut is_known = true;
    for pair in props.as_slice() {
        match eval(alloc, &pair.value, env) {
            Ok(Got::Value(value)) => add_member(alloc, &mut object, &pair.name, value)?,
            Ok(Got::NoValue) => {}
            Ok(Got::Later) => is_known = false,
            Err(fault) => return Err(fault),
        }
    }
    if is_known {
        return Ok(Some(object));
    }
    drop(object);
    Ok(None)
}

fn add_member(alloc: Global, object: &mut Dict, name: &Txt, value: Val) -> Result<(), EvalFault> {
    let Ok(name) = name.try_clone(alloc) else {
        return Err(EvalFault::NoMemory);
    };
    match object.insert(name, value) {
        Ok(()) => Ok(()),
        Err(_) => Err(EvalFault::NoMemory),
    }
}

/// Puts what the resources show into the world. They themselves see nothing.
fn see(memory: &mut Memory, template: &Template, bound: &Bound, world: &mut World) {
    let conds = CondMap::new(memory.alloc);
    let blank = Blank::new(memory);
    let dark = World::new(memory, conds, &blank);
    see_all(
        memory,
        template,
        world,
        &dark.env(bound, &template.mappings),
    );
    drop(dark);
    drop(blank);
}

fn see_all(memory: &mut Memory, template: &Template, world: &mut World, env: &Env) {
    for resource in template.resources.as_slice() {
        if !resource.name.is("X") {
            see_one(memory, resource, world, env);
        }
    }
}

fn see_one(memory: &mut Memory, resource: &Res, world: &mut World, env: &Env) {
    if resource.kind.is("Exports") {
        add_exports(memory, &mut world.imports, &resource.props, env);
    } else {
        let name = memory.text(resource.name.as_str());
        let sight = sight(memory, resource, &world.conds, env);
        memory.note(world.sights.put(name, sight).is_err());
    }
}

fn add_exports(memory: &mut Memory, pairs: &mut Pairs, props: &ExprDict, env: &Env) {
    for pair in props.as_slice() {
        if let OutputSight::Made { value: Some(text) } = output(memory.alloc, &pair.value, env) {
            let name = memory.text(pair.name.as_str());
            memory.note(pairs.insert(name, text).is_err());
        }
    }
}

fn sight(memory: &mut Memory, resource: &Res, conds: &CondMap, env: &Env) -> Sight {
    if !holds(conds, &resource.condition) {
        return Sight::NotMade;
    }
    match resource.kind.as_str() {
        "Seen" => Sight::Made {
            physical: Some(id_of(memory, "id-of-", &resource.name)),
            attrs: attributes(memory.alloc, &resource.props, env),
        },
        "Named" => Sight::Made {
            physical: Some(id_of(memory, "id-of-", &resource.name)),
            attrs: None,
        },
        "Described" => Sight::Made {
            physical: None,
            attrs: attributes(memory.alloc, &resource.props, env),
        },
        "AWS::CloudFormation::Stack" => Sight::Nested {
            id: id_of(memory, "stack-of-", &resource.name),
            outputs: outputs(memory, &resource.props, env),
        },
        _ => Sight::Made {
            physical: None,
            attrs: None,
        },
    }
}

fn holds(conds: &CondMap, condition: &Option<Txt>) -> bool {
    match condition {
        Some(name) => !matches!(conds.get(name.as_str()), Some(Verdict::False)),
        None => true,
    }
}

fn id_of(memory: &mut Memory, head: &str, name: &Txt) -> Txt {
    let mut id = memory.copy(head);
    memory.note(id.push_str(name.as_str()).is_err());
    Txt::new(id)
}

fn attributes(alloc: Global, props: &ExprDict, env: &Env) -> Option<Dict> {
    match object_by(alloc, props, env) {
        Ok(attributes) => attributes,
        Err(fault) => {
            drop(fault);
            None
        }
    }
}

fn outputs(memory: &mut Memory, props: &ExprDict, env: &Env) -> ByName<OutputSight> {
    let mut sights = ByName::new(memory.alloc);
    for pair in props.as_slice() {
        let name = memory.text(pair.name.as_str());
        let sight = output(memory.alloc, &pair.value, env);
        memory.note(sights.insert(name, sight).is_err());
    }
    sights
}

fn output(alloc: Global, value: &Expr, env: &Env) -> OutputSight {
    match eval(alloc, value, env) {
        Ok(Got::Value(Val::Text(text))) => OutputSight::Made { value: Some(text) },
        Ok(Got::NoValue) => OutputSight::NotMade,
        Err(EvalFault::Bad { why, stack, at }) => OutputSight::Broken { why, stack, at },
        other => {
            drop(other);
            OutputSight::Made { value: None }
        }
    }
}

/// The object of properties that a JSON text is; an empty one where it is none.
pub fn object_of(memory: &mut Memory, text: &str) -> Dict {
    let mut whole = memory.copy("{\"Resources\":{\"X\":{\"Type\":\"T\",\"Properties\":");
    memory.note(whole.push_str(text).is_err());
    memory.note(whole.push_str("}}}").is_err());
    let read = read_template(memory.alloc, whole.as_bytes());
    drop(whole);
    match read {
        Ok(template) => {
            let object = object_in(memory, &template);
            drop(template);
            object
        }
        Err(fault) => {
            drop(fault);
            Dict::new(memory.alloc)
        }
    }
}

fn object_in(memory: &mut Memory, template: &Template) -> Dict {
    let bound = Bound::new(memory.alloc);
    let conds = CondMap::new(memory.alloc);
    let blank = Blank::new(memory);
    let world = World::new(memory, conds, &blank);
    let env = world.env(&bound, &template.mappings);
    let object = object_over(memory.alloc, template, &env);
    drop(world);
    drop(blank);
    object
}

fn object_over(alloc: Global, template: &Template, env: &Env) -> Dict {
    let object = match template.resources.find("X") {
        Some(resource) => attributes(alloc, &resource.props, env),
        None => None,
    };
    match object {
        Some(object) => object,
        None => Dict::new(alloc),
    }
}
