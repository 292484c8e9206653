//! What a template is planned over.
//!
//! Behind ` <- ` a row says it in words between ` & `, each one of these:
//!
//! - `K=V` gives a parameter its text;
//! - `A is ID` says that the resource at the path `A` has this physical id, and `A is ID with {..}` that it has these attributes too;
//!   the id `?` is not known yet;
//! - `import N=V` is an export of another stack;
//! - `text N=TEMPLATE` is a further text of the source, in which `<<TEXT*NUMBER>>` may stand as in a piece.
use crate::evaluating::object_of;
use crate::stretch::stretched;
use cf_desired::{Seen, SeenAt};
use cf_rows::Memory;
use cf_tree::{Bytes, Pairs, Source, Texts};

/// The source of a stack, and what is seen of its resources.
#[derive(Drop)]
pub struct Scene {
    pub source: Source,
    pub seen: Seen,
}

/// The stack `app`, which operation 1 makes from a template, over what words say.
pub fn scene_of(memory: &mut Memory, template: &str, words: &str) -> Scene {
    let mut scene = Scene {
        source: source_of(memory, template),
        seen: Seen::new(memory.alloc),
    };
    if !words.is_empty() {
        for word in words.split(" & ") {
            add_word(memory, &mut scene, word);
        }
    }
    scene
}

fn source_of(memory: &mut Memory, template: &str) -> Source {
    let mut texts = Texts::new(memory.alloc);
    add_text(memory, &mut texts, "page", template);
    Source {
        root: memory.text("page"),
        texts,
        given: Pairs::new(memory.alloc),
        imports: Pairs::new(memory.alloc),
        stack: memory.text("app"),
        number: 1,
    }
}

fn add_text(memory: &mut Memory, texts: &mut Texts, name: &str, template: &str) {
    let name = memory.text(name);
    let bytes = Bytes::from_vec(memory.bytes(template.as_bytes()));
    memory.note(texts.insert(name, bytes).is_err());
}

/// Adds what a word says.
pub fn add_word(memory: &mut Memory, scene: &mut Scene, word: &str) {
    if let Some(import) = word.strip_prefix("import ") {
        add_pair(memory, &mut scene.source.imports, import);
    } else if let Some(text) = word.strip_prefix("text ") {
        let (name, template) = text.split_once('=').unwrap_or((text, ""));
        let template = stretched(memory, template);
        add_text(memory, &mut scene.source.texts, name, template.as_str());
        drop(template);
    } else if let Some((path, told)) = word.split_once(" is ") {
        let path = memory.text(path);
        let at = seen_at(memory, told);
        memory.note(scene.seen.insert(path, at).is_err());
    } else {
        add_pair(memory, &mut scene.source.given, word);
    }
}

/// Adds the name and the value of a word `N=V`.
pub fn add_pair(memory: &mut Memory, pairs: &mut Pairs, word: &str) {
    let (name, value) = word.split_once('=').unwrap_or((word, ""));
    let name = memory.text(name);
    let value = memory.text(value);
    memory.note(pairs.insert(name, value).is_err());
}

fn seen_at(memory: &mut Memory, told: &str) -> SeenAt {
    let (id, attrs) = match told.split_once(" with ") {
        Some((id, attrs)) => (id, Some(object_of(memory, attrs))),
        None => (told, None),
    };
    let physical = if id == "?" {
        None
    } else {
        Some(memory.text(id))
    };
    SeenAt { physical, attrs }
}
