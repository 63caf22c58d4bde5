//! The units of a build, from its command and the files of its view.

ghost use Rattle.std.specs.Prelude.{◌≡◌, Ok, is_some, option_copied, IfOk};
ghost use Rattle.cc_names.specs.Answers.{Gives};
ghost use Rattle.cc_names.specs.Paths.{path_of};
ghost use Rattle.make_grammar.specs.Grammar.{makefile_of};
ghost use Rattle.make_grammar.specs.Graphs.{graph_of, units, units_at, units_of};
ghost use Rattle.make_grammar.specs.Units.{main_file, refusal_of, units_unless_refused};

use cc_names::commands::Macro;
use cc_names::memory::{NoMemory, Or};
use cc_names::paths::Path;
use cc_names::refusals::{GraphFault, MakeError, Refusal};
use make_graph::goals::Exists;
use make_graph::unit_graphs::Graph;
use make_text::contents::{Makefile, Texts};
use std::alloc::Global;
use std::hash::RandomState;

// The files of a view: a path is one where it has a text.
#[derive(Drop)]
struct Files<'a, X> {
    texts: &'a X,
}

impl<X: Texts> Exists for Files<'_, X> {
    ghost use Rattle.std.specs.Prelude.{is_some};

    ghost is_file = { λ files path. is_some (X.texts files.texts.now path) };

    fn exists(&self, path: &Path) -> bool {
        self.texts.text(path).is_some()
    }
}

fn refusal_of(fault: GraphFault) -> Refusal
    ensures { result ≡ refusal_of fault }
{
    match fault {
        GraphFault::NoGoal(path) => Refusal::NoGoal(path),
        GraphFault::Cycle(path) => Refusal::Cycle(path),
        GraphFault::TargetIsSource(path) => Refusal::TargetIsSource(path),
    }
}

/// The path that these bytes spell.
fn path_named(alloc: Global, bytes: &[u8]) -> Result<Path, NoMemory>
    requires { path_of bytes.now ≡ Ok bytes.now }
    ensures { IfOk result (λ path. path ≡ bytes.now) }
{
    match Path::read(alloc, bytes) {
        Ok(path) => Ok(path),
        Err(Or::NoMemory) => Err(NoMemory),
        Err(Or::Is(_)) => unreachable!(),
    }
}

/// The main makefile: the one that is named, else `makefile` where it is a file, else `Makefile`.
fn main_file<X: Texts>(alloc: Global, texts: &X, file: Option<&Path>) -> Result<Path, NoMemory>
    ensures { IfOk result
        (λ path. path ≡ main_file (X.texts texts.now) (option_copied file.entry)) }
{
    if let Some(file) = file {
        return file.copy(alloc);
    }
    let first = path_named(alloc, b"makefile")?;
    if texts.text(&first).is_some() {
        return Ok(first);
    }
    path_named(alloc, b"Makefile")
}

/// The graph of a makefile that was read, or the refusal.
fn graph_of<X: Texts>(
    alloc: Global,
    hashing: RandomState,
    texts: &X,
    make: &Makefile,
    goals: &[Path],
) -> Result<Graph, Or<Refusal>>
    ensures { Gives result
        (units_unless_refused
        (graph_of make.now goals.now (λ path. is_some (X.texts texts.now path)))) }
{
    match Graph::of(alloc, hashing, make, goals, &Files { texts }) {
        Ok(graph) => Ok(graph),
        Err(Or::Is(fault)) => Err(Or::Is(refusal_of(fault))),
        Err(Or::NoMemory) => Err(Or::NoMemory),
    }
}

/// The graph of a makefile that is read at a path, or the refusal.
fn graph_of_file<X: Texts>(
    alloc: Global,
    hashing: RandomState,
    texts: &X,
    file: &Path,
    macros: &[Macro],
    goals: &[Path],
) -> Result<Graph, Or<Refusal>>
    ensures { Gives result
        (units_of (X.texts texts.now) goals.now
        (makefile_of (X.texts texts.now) file.now macros.now)) }
{
    match Makefile::read(alloc, hashing, file, texts, macros) {
        Ok(make) => graph_of(alloc, hashing, texts, &make, goals),
        Err(Or::Is(MakeError { file, line, cause })) => {
            Err(Or::Is(Refusal::MakeError(file, line, cause)))
        }
        Err(Or::NoMemory) => Err(Or::NoMemory),
    }
}

/// The graph of the makefile at a path, which may be no file.
fn graph_at<X: Texts>(
    alloc: Global,
    hashing: RandomState,
    texts: &X,
    file: Path,
    macros: &[Macro],
    goals: &[Path],
) -> Result<Graph, Or<Refusal>>
    ensures { Gives result
        (units_at (X.texts texts.now) macros.now goals.now file (X.texts texts.now file)) }
{
    if texts.text(&file).is_none() {
        return Err(Or::Is(Refusal::NoMakefile(file)));
    }
    graph_of_file(alloc, hashing, texts, &file, macros, goals)
}

/// The graph of a build's units, over the texts of its view's files: by the makefile that is named, else `makefile`,
/// else `Makefile`, with the macros of the command line and the goals. It is refused where the makefile is no file (B1)
/// or has a line that fails (M1), and where its goals have a fault (G1, G2, G3), tested in this order. Fails also where
/// memory runs out.
///
/// Takes what `Makefile::read` and `Graph::of` take.
pub(crate) fn graph<X: Texts>(
    alloc: Global,
    hashing: RandomState,
    texts: &X,
    file: Option<&Path>,
    macros: &[Macro],
    goals: &[Path],
) -> Result<Graph, Or<Refusal>>
    ensures { Gives result
        (units (X.texts texts.now) (option_copied file.entry) macros.now goals.now) }
{
    let main = main_file(alloc, texts, file)?;
    graph_at(alloc, hashing, texts, main, macros, goals)
}
