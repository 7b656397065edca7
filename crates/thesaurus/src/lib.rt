//! The library: all calls, for a program that keeps a thesaurus itself.
//!
//! ```
//! fn make_post_merge_show<K: Keeper>(
//!     alloc: Global,
//!     office: &mut Office<K>,
//!     report: &mut String,
//! ) -> Result<(), Failure> {
//!     let (cats, mammals) = (ResNo::new(2), ResNo::new(3));
//!     perform_read(office, scheme(alloc, "Animals"))?;
//!     perform_read(office, concept(alloc, "Cats"))?;
//!     perform_read(office, concept(alloc, "Mammals"))?;
//!     perform_read(office, post(alloc, "k1", "r1", cats))?;
//!     perform_read(office, Ok(Command::Merge(cats, mammals)))?;
//!     let core = office.ready()?;
//!     push_concept(alloc, core, mammals, report)
//! }
//! ```
//!
//! `open`, below, makes the office, and `perform_read` calls `Office::perform`. The examples on
//! this page are copied from test programs, most of them from the crate test_library.
//!
//! # What a caller must know
//!
//! **Allocators.** A call that may allocate takes an allocator, which a program gets from
//! `rt.alloc()`, or uses the one that its receiver was made with. Memory may run out in each such
//! call, which then returns an error. So texts, labels and commands are copied by `try_clone`.
//!
//! **Storage.** A call with `K: Keeper` works over any storage of the eight tables: `MemKeeper` has
//! them in memory, `SqlKeeper` in a database of the crate `sqlite`, and a program may have its own.
//! A commit makes all changes or none; a load yields all rows, table after table; `failures` counts
//! the failures other than running out of memory; the other calls look postings up, which only the
//! storage has. An office owns its storage until `Office::into_keeper`, and nothing else may change
//! the tables. What contracts say of rows holds while the storage is up (`is_up` in contracts). A
//! database isn't up again once a failure of the disk has shut it.
//!
//! **Copies.** An office copies all but the postings from its storage into a core in memory. If the
//! storage fails, or memory runs out while a request is performed, the copy may be stale
//! (`Office::is_stale`), and the next call reloads it. A core is spent (`Core::is_spent`) if memory
//! ran out while it was being changed; all its other calls require that it isn't.
//!
//! **Facts.** A core has only counts of postings. What else its decision on a command depends on is
//! passed to it as `Facts`: for a Post, the posting with its key; for a Withdraw or a Split, the
//! postings that it lists; for a Merge, the numbers of the postings at its source; for any other
//! command, nothing. An office gets them from its storage. An answer is right if the facts are.
//!
//! **Checks.** A check changes nothing, and returns the first refusal that applies. A change
//! requires that its check found none: `Vocab::check_label` comes before `Vocab::add_label`, and
//! `Core::decide` before `Core::apply`. An office and `Core::step` check for themselves.
//!
//! **Pipes.** Readers and writers are passed in a `Pipe`, which records failures. A call requires a
//! fresh one: its device hasn't failed or ended, and no read or write was denied. Reads and writes
//! are denied when one call of the library has made 100,000,000 of them.
//!
//! # Errors
//!
//! Each point states an error, its causes, and the calls that return it.
//!
//! - `AllocError`: memory ran out, and nothing is changed but the count of visits of links.
//!   `Base::try_clone`, `Book::move_all`, `Book::move_listed`, `Book::post`,
//!   `Book::take_back_moves`, `Book::take_back_withdrawal`, `CellBytes::new`, `CellText::new`,
//!   `Command::try_clone`, `Core::broader_of`, `Core::collections_of`, `Core::labels_of_kind`,
//!   `Core::mappings`, `Core::narrower_of`, `Core::related_of`, `Core::replacements`, `Core::term`,
//!   `Core::typed_of`, `Delta::push`, `Graph::add`, `Graph::add_all`, `Graph::broader_of`,
//!   `Graph::check_whole`, `Graph::collections_of`, `Graph::contract`, `Graph::mappings`,
//!   `Graph::mark_outside`, `Graph::merge_additions`, `Graph::narrower_of`, `Graph::related_of`,
//!   `Graph::typed_of`, `History::try_clone`, `Iri::try_clone`, `Key::try_clone`,
//!   `Label::try_clone`, `LabelValue::try_clone`, `NewResource::try_clone`, `Note::try_clone`,
//!   `PostingRow::try_clone`, `RecordName::try_clone`, `Routes::new`, `Sequence::push`,
//!   `Sequence::try_clone`, `Tag::try_clone`, `Text::try_clone`, `Vocab::add_label`,
//!   `Vocab::add_resource`, `Vocab::missing_labels`, `Vocab::relabel`, `Vocab::replacements`,
//!   `Vocab::take_back_death`, `Vocab::take_labels`, `check_at`, `concept_view`, `judge_add`,
//!   `judge_contract`, `sort_key`
//! - `ReadStop`: a text breaks the rules of its form, a line isn't a request, or memory ran out.
//!   `Base::read`, `Iri::read`, `Key::read`, `Note::read`, `RecordName::read`, `Tag::read`,
//!   `Text::read`, `read_request`
//! - `PlanStop`: a line isn't a plan, or memory ran out. `read_plan`
//! - `FormFault`: a text isn't a number from 1 to 4,294,967,295. `MoveNo::read`, `PostNo::read`,
//!   `ResNo::read`
//! - `Fault`: memory ran out (`OutOfMemory`), the storage failed (`Store`), or its tables have
//!   another version, or rows that no legal state has. If the storage is still up, nothing is
//!   committed, but the commands that an `Office::run` has answered stay performed. After
//!   `Core::apply`, `Core::apply_logged` or `Core::step` the core may be spent. `Core::apply`,
//!   `Core::apply_logged`, `Core::decide`, `Core::step`, `Keeper::commit`, `Keeper::find`,
//!   `Keeper::load`, `Keeper::posting`, `Keeper::row`, `Keeper::standing`,
//!   `Keeper::standing_numbers`, `Loader::finish`, `Office::perform`, `Office::posting`,
//!   `Office::postings`, `Office::ready`, `Office::report`, `Office::report_plan`, `Office::run`,
//!   `Office::run_plan`, `Office::totals`, `PostingSink::posting`, `RequestHandler::perform`,
//!   `RequestHandler::perform_plan`, `RequestHandler::report`, `RequestHandler::report_plan`,
//!   `RequestHandler::show`, `RowSink::report_unqueried`, `RowSink::row`,
//!   `SqlKeeper::commit_changes`, `SqlKeeper::migrate`, `from_rows`
//! - A fault with what was passed in: `Office::start` returns the storage, `SqlKeeper::create` the
//!   connection.
//! - `Stop`: the device of a pipe failed, or the budget of its calls is used up. `Pipe::read`,
//!   `Pipe::write_all`
//! - `io::Error`: what the device returns. `Pipe::read_once`, `Pipe::write_once`
//! - `PipeFault`: a reader or a writer failed, the input is too long, the budget of calls is used
//!   up, or a `Fault` occurred. A prefix of the output may have been written, and the lines of a
//!   `script` before the fault stay performed. `Pipe::write_text`, `alphabetical`, `export`,
//!   `hierarchical`, `script`, `write_answer`, `write_view`
//! - `ImportStop`: a `PipeFault`, with the counts of the rows that stay performed. `import`
//! - Refusals aren't errors. The first that applies is in `Answer::No`, `PlanOutcome::Refused`,
//!   `QueryAnswer::No`, `View::No` or `Shown::No`, or is what `Office::postings`, the checks of
//!   `Vocab` and of links, or `Graph::check_whole` return. docs/REQUESTS.md lists the refusals of
//!   each command. `serve_one` has no error: its response says what was refused or failed.
#![tactic(auto)]

// Values: texts, numbers, resources, labels and links; commands and their answers.
// ```
// pub fn base(alloc: Global) -> Result<Base, ReadStop> {
//     Base::read(alloc, "https://thesaurus.example/id/")
// }
//
// pub fn english(alloc: Global) -> Result<Tag, ReadStop> {
//     Tag::read(alloc, "en")
// }
//
// pub fn concept(alloc: Global, text: &str) -> Result<Command, ReadStop> {
//     let (tag, text) = both(english(alloc), Text::read(alloc, text))?;
//     Ok(Command::Concept(ResNo::new(1), tag, text))
// }
//
// pub fn post(alloc: Global, key: &str, name: &str, concept: ResNo) -> Result<Command, ReadStop> {
//     let (key, name) = both(Key::read(alloc, key), RecordName::read(alloc, name))?;
//     Ok(Command::Post(key, name, concept))
// }
//
// fn label(alloc: Global, kind: LabelKind, text: &str) -> Result<Label, ReadStop> {
//     let value = match kind {
//         LabelKind::Pref => LabelValue::Pref(Text::read(alloc, text)?),
//         LabelKind::Alt => LabelValue::Alt(Text::read(alloc, text)?),
//         LabelKind::Hidden => LabelValue::Hidden(Text::read(alloc, text)?),
//         LabelKind::Scope => LabelValue::Scope(Note::read(alloc, text)?),
//     };
//     let (tag, value) = both(english(alloc), Ok(value))?;
//     Ok(Label { tag, value })
// }
//
// fn outside_concept(alloc: Global, iri: &str) -> Result<Command, ReadStop> {
//     Ok(Command::Outside(Iri::read(alloc, iri)?))
// }
//
// fn split(alloc: Global, from: ResNo, text: &str, posting: PostNo) -> Result<Command, ReadStop> {
//     let mut postings: PostNos = Sequence::new(alloc);
//     postings.push(posting)?;
//     let ((tag, text), postings) = both(
//         both(english(alloc), Text::read(alloc, text)),
//         Ok(postings),
//     )?;
//     Ok(Command::Split(from, tag, text, postings))
// }
//
// fn outcome_name(outcome: Result<Answer, Fault>) -> &'static str {
//     match outcome {
//         Ok(Answer::No(Refusal::PreferredTaken)) => "another concept has the name",
//         Ok(Answer::No(refusal)) => refusal.name(),
//         Ok(_) => "done",
//         Err(fault) => fault.name(),
//     }
// }
//
// fn stop_name(stop: ReadStop) -> &'static str {
//     match stop {
//         ReadStop::Form(FormFault::BadIri) => "no IRI",
//         ReadStop::Form(fault) => fault.name(),
//         ReadStop::OutOfMemory => Fault::OutOfMemory.name(),
//     }
// }
//
// fn last_move(history: &History) -> Option<(MoveNo, ResNo)> {
//     let moves: &Moves = &history.moves;
//     let step: Move = moves.as_slice().last().copied()?;
//     Some((step.number, step.target))
// }
//
// fn write_within<W: Write>(
//     budget: &mut Budget,
//     text: &str,
//     writer: &mut Pipe<W>,
// ) -> Result<(), PipeFault>
//     requires { IsFresh writer.old }
// {
//     match writer.write_all(budget, text.as_bytes()) {
//         Ok(()) => Ok(()),
//         Err(Stop::TooLong) => Err(PipeFault::TooLong),
//         Err(Stop::Failed) => Err(PipeFault::Write),
//     }
// }
//
// fn write_sort_key(
//     alloc: Global,
//     core: &Core,
//     concept: ResNo,
//     tag: &Tag,
//     report: &mut String,
// ) -> Result<(), Failure>
//     requires { core.now.spent ≡ false }
// {
//     let text = match core.preferred(concept, tag) {
//         Some(text) => text.as_str(),
//         None => "none",
//     };
//     let key = sort_key(alloc, text)?;
//     push(report, &key)?;
//     report.push('\n')?;
//     Ok(())
// }
// ```
pub use thes_base::data::{
    History, Label, LabelKind, LabelValue, Limits, Link, LinkKind, Move, Moves, NewResource,
    Resource, ResourceKind, Totals, TypedKind,
};
pub use thes_base::fault::{Fault, FormFault, PipeFault, ReadStop, Refusal, Table};
pub use thes_base::number::{MoveNo, PostNo, ResNo};
pub use thes_base::pipe::{Budget, Pipe, Stop};
pub use thes_base::request::{Answer, Command, PostNos};
pub use thes_base::sequence::Sequence;
pub use thes_base::text::{Base, Iri, Key, Note, RecordName, Tag, Text};
pub use thes_display::sort_key;

// The parts of the machine: resources and labels, links, and counts of postings. A check of links
// reads the graph through the trait `Links`, which counts each visit of a link.
// ```
// fn vocab_with_scheme(alloc: Global) -> Result<Vocab, ReadStop> {
//     let base = base(alloc)?;
//     let (tag, text) = both(english(alloc), Text::read(alloc, "Animals"))?;
//     let mut vocab = Vocab::new(alloc, base);
//     vocab.add_resource(NewResource::Scheme(tag, text))?;
//     Ok(vocab)
// }
//
// fn is_live_scheme(vocab: &Vocab, number: ResNo) -> bool {
//     let resource: Option<Resource> = vocab.resource(number).copied();
//     match resource {
//         Some(resource) => resource.kind == ResourceKind::Scheme && resource.live,
//         None => false,
//     }
// }
//
// fn replacement_of(vocab: &Vocab, concept: ResNo) -> ResNo {
//     let end: Forwarding = vocab.forwarding(concept);
//     end.place
// }
//
// fn check_link(alloc: Global, graph: &Graph, link: &Link) -> Result<Option<Refusal>, AllocError> {
//     if link.a == link.b {
//         return Ok(Some(Refusal::SameResource));
//     }
//     match graph.check_whole(alloc)? {
//         None => {
//             let mut walk = graph.walk();
//             judge_add(alloc, &mut walk, link)
//         }
//         Some(refusal) => Ok(Some(refusal)),
//     }
// }
//
// fn check_merge(
//     alloc: Global,
//     graph: &Graph,
//     source: u32,
//     target: u32,
// ) -> Result<Option<Refusal>, AllocError> {
//     let (source, target) = (no(source), no(target));
//     if source == target {
//         return Ok(Some(Refusal::SameResource));
//     }
//     match graph.check_whole(alloc)? {
//         None => {
//             let mut walk = graph.walk();
//             judge_contract(alloc, &mut walk, source, target)
//         }
//         Some(refusal) => Ok(Some(refusal)),
//     }
// }
//
// fn check_added(
//     alloc: Global,
//     graph: &mut Graph,
//     link: &Link,
// ) -> Result<Option<Refusal>, AllocError> {
//     if link.a == link.b {
//         return Ok(Some(Refusal::SameResource));
//     }
//     match graph.check_whole(alloc)? {
//         None => {
//             graph.add(link)?;
//             let mut walk = graph.walk();
//             check_at(alloc, &mut walk, link.a)
//         }
//         Some(refusal) => Ok(Some(refusal)),
//     }
// }
//
// fn upward_count<L: Links>(links: &L, node: ResNo) -> usize {
//     let part: Part = links.part(node, Side::Up);
//     part.to.saturating_sub(part.from)
// }
//
// fn count_broader(alloc: Global) -> Result<usize, AllocError> {
//     let mut graph = Graph::new(alloc);
//     graph.add(&Link {
//         kind: LinkKind::Broader,
//         a: ResNo::new(2),
//         b: ResNo::new(3),
//     })?;
//     let walk: Walk = graph.walk();
//     Ok(upward_count(&walk, ResNo::new(2)))
// }
//
// fn count_posting(alloc: Global) -> Result<(PostNo, u64), AllocError> {
//     let (cats, mammals) = (ResNo::new(2), ResNo::new(3));
//     let mut book = Book::new(alloc);
//     let number = book.post(cats, 0)?;
//     book.move_all(cats, mammals)?;
//     Ok((number, book.count(mammals)))
// }
// ```
pub use thes_graph::graph::{Graph, Walk};
pub use thes_links::links::Links;
pub use thes_links::side::{Part, Side};
pub use thes_post::book::Book;
pub use thes_vocab::{Forwarding, Vocab};
pub use thes_walks::judge::{check_at, judge_add, judge_contract};

// The machine, and the rows in which its state is stored.
// ```
// fn step(core: &mut Core, command: &Command, facts: &Facts) -> Result<Answer, Fault> {
//     if core.is_spent() {
//         return Err(Fault::OutOfMemory);
//     }
//     core.step(command, facts)
// }
//
// fn facts_of_merge(alloc: Global) -> Result<Facts, AllocError> {
//     let mut facts = Facts::new(alloc);
//     facts.standing.push(PostNo::new(1))?;
//     Ok(facts)
// }
//
// fn changes_of(core: &Core, command: &Command, facts: &Facts) -> Result<Option<Delta>, Fault>
//     requires { core.now.spent ≡ false }
// {
//     match core.decide(command, facts)? {
//         Verdict::Settled(_) => Ok(None),
//         Verdict::Accepted(_, delta) => Ok(Some(delta)),
//     }
// }
//
// fn new_row_name(change: &Change) -> &'static str {
//     match change {
//         Change::AddLabel(LabelRow { .. }) => "a label",
//         Change::AddHier(
//             HierRow {
//                 typ: HierType::Generic,
//                 ..
//             },
//         ) => "a kind of something",
//         Change::AddPosting(PostingRow { .. }) => "a posting",
//         Change::AddMove(MoveRow { .. }) => "a move",
//         _ => "no such row",
//     }
// }
//
// fn outside_row(change: Change) -> Option<OutsideRow> {
//     match change {
//         Change::AddOutside(number, iri) => Some(OutsideRow { number, iri }),
//         _ => None,
//     }
// }
//
// fn load_core<K: Keeper>(alloc: Global, keeper: &mut K) -> Result<Core, Fault> {
//     let mut loader = Loader::new(alloc, Limits::default());
//     let result = copy_rows(keeper, &mut loader);
//     on_success(loader, result)?.finish()
// }
//
// fn counts_of(core: &Core) -> (u64, u64)
//     requires { core.now.spent ≡ false }
// {
//     let sizes: Sizes = core.sizes();
//     let totals: Totals = core.totals();
//     (sizes.links, totals.standing)
// }
//
// fn is_kind_of(alloc: Global, core: &Core, a: ResNo, b: ResNo) -> Result<bool, AllocError>
//     requires { core.now.spent ≡ false }
// {
//     let typed = core.typed_of(alloc, a)?;
//     Ok(typed.contains(&(TypedKind::BroaderGeneric, b)))
// }
//
// fn write_loaded(alloc: Global, rows: Rows, report: &mut String) -> Result<(), Failure> {
//     match from_rows(alloc, rows, Limits::default()) {
//         Ok(core) => {
//             let outcome = write_core(alloc, &core, report);
//             drop(core);
//             outcome
//         }
//         Err(fault) => Ok(writeln!(report, "{fault:?}")?),
//     }
// }
//
// fn copy_cell(alloc: Global, cell: &Cell) -> Result<Cell, AllocError> {
//     Ok(match cell {
//         Cell::Int(number) => Cell::Int(*number),
//         Cell::Text(text) => Cell::Text(CellText::new(alloc, text.as_str())?),
//         Cell::Bytes(bytes) => Cell::Bytes(CellBytes::new(alloc, bytes.as_slice())?),
//         Cell::Null => Cell::Null,
//     })
// }
//
// fn copy_row(alloc: Global, row: &[Cell]) -> Result<CellRow, AllocError> {
//     let mut cells = Vec::new(alloc);
//     for cell in row {
//         cells.push(copy_cell(alloc, cell)?)?;
//     }
//     Ok(CellRow::new(cells))
// }
// ```
pub use thes_core::reading::Sizes;
pub use thes_core::{Core, Facts, Verdict};
pub use thes_office::Loader;
pub use thes_row_lists::{CellRow, CellRows as Rows, from_rows};
pub use thes_tables::cells::{Cell, CellBytes, CellText};
pub use thes_tables::change::Change;
pub use thes_tables::delta::Delta;
pub use thes_tables::rows::{HierRow, HierType, LabelRow, MoveRow, OutsideRow, PostingRow};

// Storage for the tables, and the office over it.
// ```
// pub fn open<K: Keeper + Drop>(alloc: Global, keeper: K) -> Result<Office<K>, Fault> {
//     match Office::start(alloc, keeper, Limits::default()) {
//         Ok(office) => Ok(office),
//         Err((fault, _)) => Err(fault),
//     }
// }
//
// pub fn run(alloc: Global, report: &mut String) -> Result<(), Failure> {
//     let mut office = open(alloc, MemKeeper::new(alloc, base(alloc)?))?;
//     let result = make_post_merge_show(alloc, &mut office, report);
//     drop(office);
//     result
// }
//
// fn create_store<S: Alter>(alloc: Global, conn: Connection<S>, base: &Base) -> Connection<S> {
//     if !conn.is_autocommit() {
//         return conn;
//     }
//     match SqlKeeper::create(alloc, conn, base) {
//         Ok(keeper) => keeper.into_connection(),
//         Err((_, conn)) => conn,
//     }
// }
//
// impl RowSink for RowList {
//     ghost gives = { λ old row result new. Unit {0} };
//
//     fn row(&mut self, table: Table, row: &[Cell]) -> Result<(), Fault> {
//         Ok(self.push(table, row)?)
//     }
//
//     fn report_unqueried(&mut self, table: Table) -> Result<(), Fault> {
//         *self.list(table) = None;
//         Ok(())
//     }
// }
//
// impl PostingSink for PostingNumbers {
//     ghost gives = { λ old row result new. Unit {0} };
//
//     fn posting(&mut self, row: &PostingRow) -> Result<(), Fault> {
//         self.numbers.push(row.number)?;
//         Ok(())
//     }
// }
//
// fn numbers_at<K: Keeper>(
//     alloc: Global,
//     office: &mut Office<K>,
//     concept: ResNo,
// ) -> Result<Vec<PostNo>, Fault> {
//     let mut sink = PostingNumbers {
//         numbers: Vec::new(alloc),
//     };
//     let result = office.postings(concept, &mut sink);
//     let PostingNumbers { numbers } = sink;
//     on_success(numbers, result)
// }
//
// fn stored_moves<K: Keeper>(keeper: &mut K, number: PostNo) -> Result<usize, Fault> {
//     let posting: Option<Posting> = keeper.posting(number)?;
//     match posting {
//         Some(posting) => Ok(posting.moves.as_slice().len()),
//         None => Ok(0),
//     }
// }
// ```
pub use thes_office::Office;
pub use thes_sqlite::keeper::SqlKeeper;
pub use thes_store::keeper::{Keeper, Posting};
pub use thes_store::mem::MemKeeper;
pub use thes_store::sink::{PostingSink, RowSink};

// Plans: several requests as one, all or nothing.
// ```
// fn request_at(alloc: Global, place: usize) -> Result<PlanRequest, ReadStop> {
//     let (command, first) = command_at(alloc, place)?;
//     Ok(PlanRequest {
//         command,
//         first,
//         second: None,
//         postings: Vec::new(alloc),
//     })
// }
//
// fn is_plan(plan: &[PlanRequest]) -> bool {
//     plan.len() <= REQUEST_LIMIT && first_bad_reference(plan).is_none()
// }
//
// fn plan_name(memory: &mut JsonScratch, line: &str) -> &'static str {
//     match read_plan(memory, line.as_bytes()) {
//         Ok(_) => "a plan",
//         Err(PlanStop::Bad(PlanFault::Whole(fault))) => fault.name(),
//         Err(PlanStop::Bad(PlanFault::Request(_, fault))) => fault.name(),
//         Err(PlanStop::Bad(PlanFault::Reference(_))) => "a reference to nothing",
//         Err(PlanStop::OutOfMemory) => Fault::OutOfMemory.name(),
//     }
// }
//
// fn apply<K: Keeper>(office: &mut Office<K>, plan: Vec<PlanRequest>) -> Result<PlanOutcome, Fault> {
//     office.run_plan(plan)
// }
// ```
pub use thes_plans::plan::{PlanOutcome, PlanRequest, REQUEST_LIMIT};
pub use thes_plans::references::first_bad_reference;
pub use thes_requests::plan::{PlanFault, PlanStop, read_plan};

// Requests, answers and views as JSON, scripts, posting files and exports.
// ```
// fn reply_to<H: RequestHandler>(memory: &mut JsonScratch, handler: &mut H, line: &str) -> Reply
//     requires { H.is_open handler.old ≡ true }
// {
//     let command = match read_request(memory, line.as_bytes()) {
//         Ok(Request::Do(command)) => command,
//         Ok(Request::Get(_)) => return Reply::Bad(FormFault::BadShape),
//         Err(ReadStop::Form(fault)) => return Reply::Bad(fault),
//         Err(ReadStop::OutOfMemory) => return Reply::Fault(Fault::OutOfMemory),
//     };
//     let answer: Result<Answer, Fault> = handler.perform(&command);
//     drop(command);
//     match answer {
//         Ok(answer) => Reply::Answer(answer),
//         Err(fault) => Reply::Fault(fault),
//     }
// }
//
// fn answer_line(alloc: Global, answer: Answer) -> Result<Vec<u8>, PipeFault> {
//     let mut writer = Pipe::new(Vec::new(alloc));
//     let result = write_answer(Reply::Answer(answer), &mut writer);
//     on_success(writer.into_device(), result)
// }
//
// fn handler_of<K: Keeper, M: PlanMode + Copy>(office: Office<K>, mode: M) -> OfficeHandler<K, M> {
//     OfficeHandler::new(office, mode)
// }
//
// fn serve<K: Keeper, R: Read, W: Write>(
//     alloc: Global,
//     reader: &mut Pipe<R>,
//     writer: &mut Pipe<W>,
//     handler: &mut OfficeHandler<K, WithPlans>,
// ) -> Result<Ended, PipeFault>
//     requires reader { IsFresh reader.old }
//     requires writer { IsFresh writer.old }
// {
//     script(alloc, reader, writer, handler)
// }
//
// fn write_answers<K: Keeper>(
//     alloc: Global,
//     handler: &mut OfficeHandler<K, WithPlans>,
//     report: &mut String,
// ) -> Result<(), Failure> {
//     push(report, &answers(alloc, handler)?)?;
//     match view(alloc, handler, &Query::Totals)? {
//         QueryAnswer::Page(page) => Ok(push(report, bytes_of(&page))?),
//         QueryAnswer::No(_) => Ok(push(report, b"refused\n")?),
//     }
// }
//
// fn bytes_of(page: &Page) -> &[u8] {
//     page.as_bytes()
// }
//
// fn name_count(alloc: Global, core: &Core, concept: ResNo) -> Result<usize, AllocError>
//     requires { core.now.spent ≡ false }
// {
//     match concept_view(core, alloc, concept)? {
//         View::Concept(ConceptView { pref, .. }) => Ok(pref.len()),
//         _ => Ok(0),
//     }
// }
//
// fn list_of_one(alloc: Global, history: &History) -> Result<View<'_>, AllocError> {
//     let mut rows = Vec::new(alloc);
//     rows.push(history)?;
//     Ok(View::Postings(PostingRows { rows }))
// }
//
// pub fn view_line(alloc: Global, view: &View) -> Result<Vec<u8>, PipeFault> {
//     let mut writer = Pipe::new(Vec::new(alloc));
//     let result = write_view(alloc, view, &mut writer);
//     on_success(writer.into_device(), result)
// }
//
// fn import_file<K: Keeper, R: Read, W: Write>(
//     alloc: Global,
//     reader: &mut Pipe<R>,
//     writer: &mut Pipe<W>,
//     office: &mut Office<K>,
// ) -> Result<usize, PipeFault>
//     requires reader { IsFresh reader.old }
//     requires writer { IsFresh writer.old }
// {
//     match import(alloc, reader, writer, office) {
//         Ok(Imported::Rows(counts)) => {
//             let counts: Counts = counts;
//             Ok(counts.posted)
//         }
//         Ok(Imported::Malformed) => Ok(0),
//         Err(ImportStop { fault, .. }) => Err(fault),
//     }
// }
//
// fn write_export<K: Keeper, W: Write>(
//     alloc: Global,
//     office: &mut Office<K>,
//     writer: &mut Pipe<W>,
// ) -> Result<(), PipeFault>
//     requires { IsFresh writer.old }
// {
//     let core = office.ready()?;
//     export(alloc, core, writer)
// }
// ```
pub use thes_exchange::concept::concept_view;
pub use thes_exchange::query_answers::write_view;
pub use thes_exchange::view::{ConceptView, PostingRows, View};
pub use thes_export::writing::export;
pub use thes_import::import::{ImportEnd as Imported, ImportStop, import};
pub use thes_posting_files::report::Counts;
pub use thes_requests::JsonScratch;
pub use thes_requests::answer::{Reply, write_answer};
pub use thes_requests::handler::{QueryAnswer, RequestHandler};
pub use thes_requests::page::Page;
pub use thes_requests::request::{Query, Request, read_request};
pub use thes_requests::script::ScriptEnd as Ended;
pub use thes_service::plan_mode::{NoPlans, PlanMode, WithPlans};
pub use thes_service::{OfficeHandler, office_script as script};

// Displays, and connections of HTTP.
// ```
// fn write_display<W: Write>(
//     alloc: Global,
//     core: &Core,
//     tag: &Tag,
//     is_tree: bool,
//     writer: &mut Pipe<W>,
// ) -> Result<bool, PipeFault>
//     requires unspent { core.now.spent ≡ false }
//     requires writer { IsFresh writer.old }
// {
//     let scheme = ResNo::new(1);
//     let shown = if is_tree {
//         hierarchical(alloc, core, scheme, tag, writer)?
//     } else {
//         alphabetical(alloc, core, scheme, tag, writer)?
//     };
//     Ok(shown == Shown::Written)
// }
//
// fn serve_connection<K: Keeper, R: Read, W: Write>(
//     alloc: Global,
//     handler: &mut OfficeHandler<K, NoPlans>,
//     reader: &mut Pipe<R>,
//     writer: &mut Pipe<W>,
// ) -> Option<Status>
//     requires reader { IsFresh reader.old }
//     requires writer { IsFresh writer.old }
// {
//     let routes = Routes::new(alloc).ok();
//     match serve_one(alloc, routes.as_ref(), reader, writer, handler) {
//         Served::Answered(status) => Some(status),
//         Served::Cut | Served::ReadFault | Served::WriteFault => None,
//     }
// }
// ```
pub use thes_display::writing::{DisplayOutcome as Shown, alphabetical, hierarchical};
pub use thes_http::Status;
pub use thes_http::connection::{ConnectionEnd as Served, serve_one};
pub use thes_http_request::endpoint::Routes;
