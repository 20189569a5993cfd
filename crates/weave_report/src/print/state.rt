//! The words of a vertex's state.
ghost use Rattle.std.specs.Prelude.{◌≡◌, ◌++◌, map, OnOk, codes};
ghost use Rattle.weave_text.specs.Lines.{marked_texts, spaced_words};
ghost use Rattle.weave_report.specs.ReportText.{content_words, edge_text, property_text, state_words};
ghost use Rattle.weave_report.specs.TextOf.{IsName, IsTypedEdge, IsTypedMap, IsTypedRecord, IsTypedState};

use graph_ops::{Edge, Record};
use std::alloc::AllocError;
use weave_data::{Name, NameMap};
use weave_text::Text;

/// The words of a state, with a space before each.
pub fn print_state(text: &mut Text, state: &Option<Record>) -> Result<(), AllocError>
    ensures text { OnOk result (text.new ≡ text.old ++ spaced_words (state_words state.now)) }
    ensures typed { OnOk result (IsTypedState state.now) }
{
    match state {
        None => text.word(b"absent"),
        Some(record) => {
            text.word(b"record")?;
            print_contents(text, record)
        }
    }
}

// The properties and the edges of a record.
fn print_contents(text: &mut Text, held: &Record) -> Result<(), AllocError>
    ensures text { OnOk result (text.new ≡ text.old ++ spaced_words (content_words held.now)) }
    ensures typed { OnOk result (IsTypedRecord held.now) }
{
    print_properties(text, b" ", &held.props)?;
    print_edges(text, &held.edges)
}

// The properties, with this mark before each.
fn print_properties(
    text: &mut Text,
    mark: &[u8],
    properties: &NameMap<Name>,
) -> Result<(), AllocError>
    ensures text { OnOk result (text.new ≡ text.old ++ marked_texts mark.now (map property_text properties.now)) }
    ensures typed { OnOk result (IsTypedMap IsName properties.now) }
{
    for (key, value) in properties.as_slice() {
        print_property(text, mark, key, value)?;
    }
    Ok(())
}

fn print_property(text: &mut Text, mark: &[u8], key: &Name, value: &Name) -> Result<(), AllocError>
    ensures text { OnOk result (text.new ≡ text.old ++ (mark.now ++ property_text (key.now, value.now))) }
    ensures typed { OnOk result (IsName key.now × IsName value.now) }
{
    text.push(mark)?;
    text.push(key.bytes())?;
    text.push(b"=")?;
    text.push(value.bytes())
}

// The edges, with a space before each.
fn print_edges(text: &mut Text, edges: &NameMap<Edge>) -> Result<(), AllocError>
    ensures text { OnOk result (text.new ≡ text.old ++ spaced_words (map edge_text edges.now)) }
    ensures typed { OnOk result (IsTypedMap IsTypedEdge edges.now) }
{
    for (name, edge) in edges.as_slice() {
        print_edge(text, name, edge)?;
    }
    Ok(())
}

fn print_edge(text: &mut Text, name: &Name, edge: &Edge) -> Result<(), AllocError>
    ensures text { OnOk result (text.new ≡ text.old ++ (codes " " ++ edge_text (name.now, edge.now))) }
    ensures typed { OnOk result (IsName name.now × IsTypedEdge edge.now) }
{
    text.word(name.bytes())?;
    text.push(b">")?;
    text.push(edge.target.bytes())?;
    print_properties(text, b",", &edge.tags)
}
