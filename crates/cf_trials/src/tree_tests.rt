//! Texts, values, lists and maps: each call that takes memory once, with ample memory, and lists, maps, pairs and options at
//! concrete types. How expressions and conditions are put together shows in the rows of cf_tables.
use crate::told::is_told;
use cf_tree::{
    Action, Answer, Attribute, Bytes, Detail, Details, Dict, Evaluation, Listing, Names, Pairs,
    Planned, Plans, Recreation, Replacement, Request, Row, Rows, Source, Texts, TryClone, Txt, Val,
    Vals,
};
use std::alloc::{AllocError, Global};
use std::process::Abort;
use std::test::Fail;

fn txt(alloc: Global, text: &str) -> Result<Txt, AllocError> {
    Txt::from_str(alloc, text)
}

fn two_texts(alloc: Global, one: &str, two: &str) -> Result<(Txt, Txt), AllocError> {
    let one = txt(alloc, one)?;
    let two = txt(alloc, two)?;
    Ok((one, two))
}

/// A text that takes no memory.
fn blank(alloc: Global) -> Txt {
    Txt::new(String::new(alloc))
}

/// What was put together, where nothing failed.
fn put_together<T: Drop>(done: Result<(), AllocError>, whole: T) -> Result<T, AllocError> {
    match done {
        Ok(()) => Ok(whole),
        Err(failed) => {
            drop(whole);
            Err(failed)
        }
    }
}

fn add_items(alloc: Global, items: &mut Vals) -> Result<(), AllocError> {
    items.push(Val::Text(txt(alloc, "x")?))?;
    items.push(Val::Whole(-1))
}

/// `["x",-1]`
fn list(alloc: Global) -> Result<Val, AllocError> {
    let mut items = Vals::new(alloc);
    let done = add_items(alloc, &mut items);
    Ok(Val::List(put_together(done, items)?))
}

fn add_members(alloc: Global, pairs: &mut Dict) -> Result<(), AllocError> {
    pairs.insert(txt(alloc, "b")?, Val::Truth(true))?;
    let list = list(alloc)?;
    match txt(alloc, "a") {
        Ok(name) => pairs.insert(name, list),
        Err(failed) => {
            drop(list);
            Err(failed)
        }
    }
}

/// `{"a":["x",-1],"b":true}`, put together out of order.
fn sample(alloc: Global) -> Result<Dict, AllocError> {
    let mut pairs = Dict::new(alloc);
    let done = add_members(alloc, &mut pairs);
    put_together(done, pairs)
}

fn holds_its_members(rt: &impl Abort, pairs: &Dict) -> Result<(), Fail> {
    assert_eq!(rt; pairs.len(), 2);
    assert!(rt; matches!(pairs.get("b"), Some(Val::Truth(true))));
    assert!(rt; pairs.get("c").is_none());
    Ok(())
}

fn is_value_copied(alloc: Global, value: &Val) -> Result<bool, AllocError> {
    let copy = value.try_clone(alloc)?;
    let same = copy == *value;
    drop(copy);
    Ok(same)
}

#[test]
fn values_are_kept_and_copied(rt: HostRuntime) -> Result<(), Fail> {
    let pairs = sample(rt.alloc())?;
    let held = holds_its_members(&rt, &pairs);
    let value = Val::Dict(pairs);
    let copied = is_value_copied(rt.alloc(), &value);
    drop(value);
    held?;
    assert!(rt; copied?);
    Ok(())
}

fn add_name(alloc: Global, names: &mut Names) -> Result<(), AllocError> {
    names.push(txt(alloc, "Web")?)
}

fn is_web(names: &Names) -> bool {
    matches!(names.as_slice().first(), Some(name) if name.is("Web"))
}

fn are_names_copied(alloc: Global, names: &Names) -> Result<bool, AllocError> {
    let copy = names.try_clone(alloc)?;
    let same = copy == *names && is_web(&copy);
    drop(copy);
    Ok(same)
}

#[test]
fn names_are_copied(rt: HostRuntime) -> Result<(), Fail> {
    let mut names = Names::new(rt.alloc());
    let done = add_name(rt.alloc(), &mut names);
    let copied = are_names_copied(rt.alloc(), &names);
    drop(names);
    done?;
    assert!(rt; copied?);
    Ok(())
}

/// A text, and `{"a":["x",-1],"b":true}`.
fn text_and_pairs(alloc: Global, text: &str) -> Result<(Txt, Dict), AllocError> {
    let text = txt(alloc, text)?;
    match sample(alloc) {
        Ok(pairs) => Ok((text, pairs)),
        Err(failed) => {
            drop(text);
            Err(failed)
        }
    }
}

fn planned(alloc: Global) -> Result<Planned, AllocError> {
    let (kind, props) = text_and_pairs(alloc, "Local::Files::File")?;
    match txt(alloc, "Web") {
        Ok(name) => Ok(Planned { name, kind, props }),
        Err(failed) => {
            drop(kind);
            drop(props);
            Err(failed)
        }
    }
}

fn add_planned(alloc: Global, plans: &mut Plans) -> Result<(), AllocError> {
    plans.push(planned(alloc)?)
}

fn is_found_in(plans: &Plans) -> bool {
    match plans.find("Web") {
        Some(plan) => plan.kind.is("Local::Files::File"),
        None => false,
    }
}

fn are_plans_copied(alloc: Global, plans: &Plans) -> Result<bool, AllocError> {
    let copy = plans.try_clone(alloc)?;
    let same = copy.as_slice() == plans.as_slice() && is_found_in(&copy);
    let none = copy.find("web").is_none();
    drop(copy);
    Ok(same && none)
}

#[test]
fn plans_are_copied(rt: HostRuntime) -> Result<(), Fail> {
    let mut plans = Plans::new(rt.alloc());
    let done = add_planned(rt.alloc(), &mut plans);
    let copied = are_plans_copied(rt.alloc(), &plans);
    drop(plans);
    done?;
    assert!(rt; copied?);
    Ok(())
}

fn is_request_copied(alloc: Global, request: &Request) -> Result<bool, AllocError> {
    let copy = request.try_clone(alloc)?;
    let same = copy == *request;
    drop(copy);
    Ok(same)
}

fn is_answer_copied(alloc: Global, answer: &Answer) -> Result<bool, AllocError> {
    let copy = answer.try_clone(alloc)?;
    let same = copy == *answer;
    drop(copy);
    Ok(same)
}

#[test]
fn requests_are_copied(rt: HostRuntime) -> Result<(), Fail> {
    let (kind, props) = text_and_pairs(rt.alloc(), "Local::Files::File")?;
    let request = Request::Create { kind, props };
    let copied = is_request_copied(rt.alloc(), &request);
    drop(request);
    assert!(rt; copied?);
    Ok(())
}

#[test]
fn answers_are_copied(rt: HostRuntime) -> Result<(), Fail> {
    let (physical, attrs) = text_and_pairs(rt.alloc(), "f1:1")?;
    let answer = Answer::Success { physical, attrs };
    let copied = is_answer_copied(rt.alloc(), &answer);
    drop(answer);
    assert!(rt; copied?);
    Ok(())
}

fn add_text(alloc: Global, texts: &mut Texts) -> Result<(), AllocError> {
    let bytes = vec![in alloc; 123, 125]?;
    match txt(alloc, "one") {
        Ok(name) => texts.insert(name, Bytes::from_vec(bytes)),
        Err(failed) => {
            drop(bytes);
            Err(failed)
        }
    }
}

fn source(alloc: Global) -> Result<Source, AllocError> {
    let mut texts = Texts::new(alloc);
    let done = add_text(alloc, &mut texts);
    let texts = put_together(done, texts)?;
    Ok(Source {
        root: blank(alloc),
        texts,
        given: Pairs::new(alloc),
        imports: Pairs::new(alloc),
        stack: blank(alloc),
        number: 3,
    })
}

fn holds_its_text(source: &Source) -> bool {
    match source.texts.get("one") {
        Some(bytes) => bytes.as_slice() == [123, 125].as_slice() && source.number == 3,
        None => false,
    }
}

#[test]
fn sources_are_copied(rt: HostRuntime) -> Result<(), Fail> {
    let source = source(rt.alloc())?;
    let copy = source.try_clone(rt.alloc());
    drop(source);
    let copy = copy?;
    let held = holds_its_text(&copy);
    drop(copy);
    assert!(rt; held);
    Ok(())
}

fn add_detail(alloc: Global, details: &mut Details) -> Result<(), AllocError> {
    let name = txt(alloc, "Content")?;
    details.push(Detail {
        attribute: Attribute::Properties,
        name,
        recreation: Recreation::Never,
        evaluation: Evaluation::Static,
    })
}

fn row(alloc: Global) -> Result<Row, AllocError> {
    let mut details = Details::new(alloc);
    let done = add_detail(alloc, &mut details);
    let details = put_together(done, details)?;
    Ok(Row {
        action: Action::Modify,
        path: blank(alloc),
        kind: blank(alloc),
        replacement: Some(Replacement::False),
        unsure: true,
        details,
    })
}

fn add_row(alloc: Global, rows: &mut Rows) -> Result<(), AllocError> {
    rows.push(row(alloc)?)
}

fn hold_their_row(rows: &Rows) -> bool {
    match rows.as_slice().first() {
        Some(row) => row.unsure && row.details.len() == 1 && rows.len() == 1,
        None => false,
    }
}

#[test]
fn rows_are_copied(rt: HostRuntime) -> Result<(), Fail> {
    let mut rows = Rows::new(rt.alloc());
    let done = add_row(rt.alloc(), &mut rows);
    let copy = rows.try_clone(rt.alloc());
    drop(rows);
    let copy = copy?;
    let held = hold_their_row(&copy);
    drop(copy);
    done?;
    assert!(rt; held);
    Ok(())
}

/// `Stage` and `Hosts`, put together out of order.
fn add_pairs(alloc: Global, given: &mut Pairs) -> Result<(), AllocError> {
    let (name, value) = two_texts(alloc, "Stage", "prod")?;
    given.insert(name, value)?;
    given.insert(txt(alloc, "Hosts")?, blank(alloc))
}

fn value_of(alloc: Global, given: &Pairs, name: &str) -> Result<String, AllocError> {
    match given.get(name) {
        Some(value) => String::from_str(alloc, value.as_str()),
        None => String::from_str(alloc, "none"),
    }
}

/// What stood under a name, or what is given back where nothing stood there.
fn replaced(
    alloc: Global,
    given: &mut Pairs,
    name: &str,
    value: &str,
) -> Result<String, AllocError> {
    match given.replace(name, txt(alloc, value)?) {
        Ok(was) => {
            let line = format!(in alloc; "was {}", was.as_str());
            drop(was);
            line
        }
        Err(back) => {
            let line = format!(in alloc; "back {}", back.as_str());
            drop(back);
            line
        }
    }
}

fn are_in_order(rt: &impl Abort, given: &Pairs) -> Result<(), Fail> {
    assert_eq!(rt; given.len(), 2);
    assert!(rt; matches!(given.as_slice().first(), Some(pair) if pair.0.is("Hosts")));
    Ok(())
}

fn are_replaced(rt: &impl Abort, alloc: Global, given: &mut Pairs) -> Result<(), Fail> {
    are_in_order(rt, given)?;
    is_told(rt, value_of(alloc, given, "Stage"), "prod")?;
    is_told(rt, replaced(alloc, given, "Stage", "beta"), "was prod")?;
    is_told(rt, value_of(alloc, given, "Stage"), "beta")?;
    is_told(rt, replaced(alloc, given, "Size", "3"), "back 3")?;
    is_told(rt, value_of(alloc, given, "Size"), "none")
}

fn copied_pairs(alloc: Global) -> Result<Pairs, AllocError> {
    let mut given = Pairs::new(alloc);
    let done = add_pairs(alloc, &mut given);
    let given = put_together(done, given)?;
    let copy = given.try_clone(alloc);
    drop(given);
    copy
}

#[test]
fn maps_keep_the_order_of_names_and_replace_a_value(rt: HostRuntime) -> Result<(), Fail> {
    let mut given = copied_pairs(rt.alloc())?;
    let told = are_replaced(&rt, rt.alloc(), &mut given);
    drop(given);
    told
}

/// `b`, then `c` before it, then `d` behind both, then without `b`.
fn change(alloc: Global, list: &mut Listing<Txt>) -> Result<(), AllocError> {
    list.push(txt(alloc, "b")?)?;
    list.insert(0, txt(alloc, "c")?)?;
    let mut more = Listing::new(alloc);
    let done = add_d(alloc, &mut more);
    list.append(put_together(done, more)?)?;
    list.retain(|text| !text.is("b"));
    Ok(())
}

fn add_d(alloc: Global, list: &mut Listing<Txt>) -> Result<(), AllocError> {
    list.push(txt(alloc, "d")?)
}

fn are(texts: &[Txt], wanted: [&str; 2]) -> bool {
    match texts {
        [one, two] => one.is(wanted[0]) && two.is(wanted[1]),
        _ => false,
    }
}

#[test]
fn lists_are_changed(rt: HostRuntime) -> Result<(), Fail> {
    let mut list = Listing::new(rt.alloc());
    let done = change(rt.alloc(), &mut list);
    let changed = are(list.as_slice(), ["c", "d"]);
    drop(list);
    done?;
    assert!(rt; changed);
    Ok(())
}

fn is_home(pair: &(Txt, Option<Txt>)) -> bool {
    match &pair.1 {
        Some(value) => pair.0.is("Url") && value.is("home"),
        None => false,
    }
}

#[test]
fn pairs_and_options_are_copied(rt: HostRuntime) -> Result<(), Fail> {
    let (name, value) = two_texts(rt.alloc(), "Url", "home")?;
    let pair = (name, Some(value));
    let copy = pair.try_clone(rt.alloc());
    drop(pair);
    let copy = copy?;
    let held = is_home(&copy);
    drop(copy);
    assert!(rt; held);
    Ok(())
}
