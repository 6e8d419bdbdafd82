//! Graphs as text: for Graphviz, for Mermaid, as an outline, and as a picture in SVG.
//!
//! Names are shown without control characters and signs of direction, and escaped for each form.
//!
//! Each form has one definition: DOT, Mermaid, an outline, and SVG, of which no contract says where
//! the boxes are (`IsSvgOf`). The outcome of a node is a colour or a word, and the legend of a
//! picture and of DOT says what the colours mean (`colour_of`). No premise. Laws say that no name
//! is taken for markup: no hidden character is shown, DOT reads a quoted name back whole
//! (`DotReadsBack`), a name in XML has no quote and neither `<` nor `>` (`XmlHasNoMarkup`), and in
//! Mermaid nothing of HTML or Markdown (`MermaidHasNoSpecial`).
//!
//! Out of scope: what the nodes stand for (`gb_ask_command` makes them of a plan), and a good
//! layout: the boxes of a picture are in columns by the longest chain that leads to each, and
//! curves may cross. DOT and Mermaid leave the layout to other tools.
#![tactic(auto)]

mod columns;
pub mod dot;
mod escapes;
pub mod graph;
pub mod laws;
pub mod mermaid;
pub mod outline;
pub mod shown;
pub mod svg;
