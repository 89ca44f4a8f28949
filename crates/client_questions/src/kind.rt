ghost use Rattle.std.specs.Prelude.{◌≡◌, map, option_map};
ghost use Rattle.client_questions.specs.Kinds.{cluster_kind, is_call, kind_named, kind_of, kind_with, rows};
ghost use Rattle.client_questions.specs.Shown.{first_named, row};

use byte_texts::Text;

/// The kinds of questions.
#[derive(Clone, Copy)]
pub(crate) enum Kind {
    Hello,
    Client,
    Cluster,
    Quit,
    Plain(PlainKind),
}

/// The kinds of questions that are answered alike whoever asks, and whichever node.
#[derive(Clone, Copy)]
pub(crate) enum PlainKind {
    Info,
    Command,
    Config,
    Select,
    Echo,
    ReadOnly,
    ReadWrite,
    Auth,
}

/// The first word of a question, in lower case, and the question's kind.
struct KindRow {
    text: &'static [u8],
    kind: Kind,
}

/// Each kind by its first word, in the order of the questions that COMMAND tells.
const KINDS: [KindRow; 12] = [
    KindRow {
        text: b"hello",
        kind: Kind::Hello,
    },
    KindRow {
        text: b"info",
        kind: Kind::Plain(PlainKind::Info),
    },
    KindRow {
        text: b"command",
        kind: Kind::Plain(PlainKind::Command),
    },
    KindRow {
        text: b"cluster",
        kind: Kind::Cluster,
    },
    KindRow {
        text: b"client",
        kind: Kind::Client,
    },
    KindRow {
        text: b"config",
        kind: Kind::Plain(PlainKind::Config),
    },
    KindRow {
        text: b"select",
        kind: Kind::Plain(PlainKind::Select),
    },
    KindRow {
        text: b"echo",
        kind: Kind::Plain(PlainKind::Echo),
    },
    KindRow {
        text: b"quit",
        kind: Kind::Quit,
    },
    KindRow {
        text: b"readonly",
        kind: Kind::Plain(PlainKind::ReadOnly),
    },
    KindRow {
        text: b"readwrite",
        kind: Kind::Plain(PlainKind::ReadWrite),
    },
    KindRow {
        text: b"auth",
        kind: Kind::Plain(PlainKind::Auth),
    },
];

/// The kind of question that the request is, if it is one.
#[tactic(auto, unfolding(crate::specs::Kinds::kind_of))]
pub(crate) fn kind_of(request: &[Text]) -> Option<Kind>
    ensures { result ≡ kind_of request.now }
{
    let (word, further) = request.split_first()?;
    kind_with(kind_named(word.get()), further)
}

/// The kind of a question whose first word has this kind: CLUSTER alone is looked at further.
fn kind_with(kind: Option<Kind>, further: &[Text]) -> Option<Kind>
    ensures { result ≡ kind_with kind further.now }
{
    match kind? {
        Kind::Cluster => cluster_kind(further),
        kind => Some(kind),
    }
}

/// The kind of CLUSTER with these further words: none where they make a call of it.
fn cluster_kind(further: &[Text]) -> Option<Kind>
    ensures { result ≡ cluster_kind further.now }
{
    match further {
        [] => Some(Kind::Cluster),
        [word, ..] => {
            if is_call(word.get()) {
                None
            } else {
                Some(Kind::Cluster)
            }
        }
    }
}

/// Whether the word after CLUSTER is one of a call.
fn is_call(word: &[u8]) -> bool
    ensures { result ≡ is_call word.now }
{
    (word.eq_ignore_ascii_case(b"keyslot") || word.eq_ignore_ascii_case(b"slots"))
        || (word.eq_ignore_ascii_case(b"setslot") || word.eq_ignore_ascii_case(b"getkeysinslot"))
}

fn kind_named(word: &[u8]) -> Option<Kind>
    ensures { result ≡ kind_named word.now }
{
    kind_in(first_named(&KINDS, word))
}

fn kind_in(row: Option<&KindRow>) -> Option<Kind>
    ensures { result ≡ option_map (λ r. r.now.kind) row.entry }
{
    match row {
        Some(row) => Some(row.kind),
        None => None,
    }
}

#[tactic(auto, unfolding(crate::specs::Shown::first_named))]
fn first_named<'t>(rows: &'t [KindRow], word: &[u8]) -> Option<&'t KindRow>
    ensures { option_map (λ r. r.now) result ≡ first_named word.now rows.now }
{
    rows.iter().find(|row| word.eq_ignore_ascii_case(row.text))
}
