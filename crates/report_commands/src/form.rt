use json_text::Measures;
use network_commands::Scene;

/// What is printed of a tree or of a ranking.
#[derive(Clone, Copy)]
pub enum Form<'a> {
    /// What it proves, and its networks, for people, with these units of measure in headings.
    Report(&'a Measures),
    /// The same for programs.
    Json,
    /// Its network in the graph of this scene.
    Graph(Scene),
}

/// For whom it is printed what a ranking proves.
#[derive(Clone, Copy)]
pub enum Reader<'a> {
    /// For people, with these units of measure in headings.
    People(&'a Measures),
    Programs,
}
