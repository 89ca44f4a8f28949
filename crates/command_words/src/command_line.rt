ghost use Rattle.std.specs.Prelude.{◌≡◌, ◌≢◌, ◌∷◌, List, Some, IfNone, IfOk, IfSome, IsErr, IsOkAnd, IsTrue};
ghost use Rattle.std.specs.Prelude.{All, codes, false, fold, map, option_map, string_bytes};
ghost use Rattle.clap.specs.Words.{Row, app_of, found_of, kind_of, rows_of, rule_of, shape_of, subcommand_rows_of};
ghost use Rattle.clap.specs.Words.{with_rule, with_subcommand};
ghost use Rattle.clap.specs.Simple.{new_shape};
ghost use Rattle.clap.specs.declared.builder.command.Command.TheViews.{out-Command as fields_of};
ghost use Rattle.command_words.specs.Clusters.{AreApplyRows};
ghost use Rattle.command_words.specs.Surveying.{AreSurveyRows};
ghost use Rattle.command_words.specs.CommandLine.{AsksFor, EndsLine, HasWholeLines, IsCommand, IsFaultLine};
ghost use Rattle.command_words.specs.CommandLine.{IsRehearsal, ReportsOf, apply, is_cluster_word, is_survey_word};
ghost use Rattle.command_words.specs.CommandLine.{names_cluster, names_survey, start_kind};
ghost use Rattle.command_words.specs.CommandLine.{draw, explain, forget, plan_drain, plan_rebalance, plan_reshard};
ghost use Rattle.command_words.specs.CommandLine.{reshard, resume, serve, survey, texts, top, verify};
ghost use Rattle.command_words.specs.Forgetting.{AreForgetRows};
ghost use Rattle.command_words.specs.Planning.{AreDrainRows, AreRebalanceRows, AreReshardRows};
ghost use Rattle.command_words.specs.Resuming.{AreResumeRows};
ghost use Rattle.command_words.specs.Serving.{AreServeRows};
ghost use Rattle.command_words.specs.Showing.{AreDrawRows, AreExplainRows};
ghost use Rattle.command_words.specs.Starts.{AreStartRows, HasStart, IsStart};

use crate::arguments::flag_in;
use crate::clusters::{
    append_flag, apply_words, cluster_option, cluster_words, dead_for_good_option, expect_option,
    keys_option, log_option, overwrite_flag, plan_option, stop_file_option, timeout_option,
    wait_for_news_flag,
};
use crate::faults::{OptionFault, fault_line};
use crate::forgetting::{forget_words, node_argument};
use crate::planning::{
    batch_option, drain_words, drained_option, from_option, rebalance_words, reshard_words,
    slots_option, some_to_option, threshold_option, to_option, use_empty_flag, weights_option,
};
use crate::resuming::{by_option, resume_words};
use crate::serving::{
    answers_clients_flag, base_port_option, connections_option, plan_flag, serve_words,
    workers_option,
};
use crate::showing::{json_flag, now_flag};
use crate::sizes::{even_option, nodes_option};
use crate::start_kind::StartKind;
use crate::starts::{start_of, survey_option};
use crate::surveying::{full_flag, keys_flag, slots_flag, stranded_flag, survey_words};
use crate::texts::{
    APPLY_EXAMPLE, CLUSTER_HELP, DRAIN_EXAMPLE, DRAW_EXAMPLE, EXPLAIN_EXAMPLE, FORGET_EXAMPLE,
    PLAN_HELP, PLAN_LINES, REBALANCE_EXAMPLE, RESHARD_EXAMPLE, RESUME_EXAMPLE, RESUMED_PLAN_HELP,
    SCRIPT_LINES, SERVE_EXAMPLE, START_HELP, SURVEY_EXAMPLE, VERSION,
};
use crate::usage::{ExplainWords, Start, Usage};
use clap::error::ErrorKind;
use clap::{Arg, ArgMatches, Command, Error};
use std::alloc::{AllocError, Global};

/// What the words ask for, without the program's name.
pub fn parse(alloc: Global, words: &[String]) -> Result<Usage, AllocError>
    ensures asked { IfOk result (AsksFor (texts words.now)) }
    ensures lines { IfOk result HasWholeLines }
    ensures rehearses { IsRehearsal (texts words.now) → IfOk result (λ usage. usage ≡ Usage.Rehearse) }
{
    let given = given(alloc, words)?;
    let kind = start_kind(words);
    match command(alloc, kind)?.try_get_matches_from(given.as_slice()) {
        // Each is dropped by name: a proof sees one call, where it would take the value apart at the end of the arm.
        Ok(matches) => {
            let usage = command_of(alloc, &matches);
            drop(matches);
            usage
        }
        Err(error) => {
            let usage = usage_of(alloc, &error);
            drop(error);
            usage
        }
    }
}

/// What the matches ask for.
fn command_of(alloc: Global, matches: &ArgMatches) -> Result<Usage, AllocError>
    requires verified { (rows : List Row) → subcommand_rows_of matches.now ≡ Some (codes "verify", rows)
        → AreStartRows rows }
    requires resharded { (rows : List Row) → subcommand_rows_of matches.now ≡ Some (codes "plan-reshard", rows)
        → AreReshardRows rows }
    requires rebalanced { (rows : List Row) → subcommand_rows_of matches.now ≡ Some (codes "plan-rebalance", rows)
        → AreRebalanceRows rows }
    requires served { (rows : List Row) → subcommand_rows_of matches.now ≡ Some (codes "serve", rows)
        → AreServeRows rows }
    requires surveyed { (rows : List Row) → subcommand_rows_of matches.now ≡ Some (codes "survey", rows)
        → AreSurveyRows rows }
    requires applied { (rows : List Row) → subcommand_rows_of matches.now ≡ Some (codes "apply", rows)
        → AreApplyRows rows }
    requires resumed { (rows : List Row) → subcommand_rows_of matches.now ≡ Some (codes "resume", rows)
        → AreResumeRows rows }
    requires explained { (rows : List Row) → subcommand_rows_of matches.now ≡ Some (codes "explain", rows)
        → AreExplainRows rows }
    requires drawn { (rows : List Row) → subcommand_rows_of matches.now ≡ Some (codes "draw", rows)
        → AreDrawRows rows }
    requires drained { (rows : List Row) → subcommand_rows_of matches.now ≡ Some (codes "plan-drain", rows)
        → AreDrainRows rows }
    requires forgotten { (rows : List Row) → subcommand_rows_of matches.now ≡ Some (codes "forget", rows)
        → AreForgetRows rows }
    ensures command { IfOk result (IsCommand (subcommand_rows_of matches.now)) }
    ensures lines { IfOk result HasWholeLines }
{
    if let Some(given) = given_for(matches, "verify") {
        return verification(alloc, given);
    }
    if let Some(given) = given_for(matches, "plan-reshard") {
        return resharding(alloc, given);
    }
    if let Some(given) = given_for(matches, "plan-rebalance") {
        return rebalancing(alloc, given);
    }
    if let Some(given) = given_for(matches, "serve") {
        return service(alloc, given);
    }
    if let Some(given) = given_for(matches, "survey") {
        return surveying(alloc, given);
    }
    if let Some(given) = given_for(matches, "apply") {
        return applying(alloc, given);
    }
    if let Some(given) = given_for(matches, "resume") {
        return resuming(alloc, given);
    }
    if let Some(given) = given_for(matches, "explain") {
        return explaining(alloc, given);
    }
    if let Some(given) = given_for(matches, "draw") {
        return drawing(alloc, given);
    }
    if let Some(given) = given_for(matches, "plan-drain") {
        return draining(alloc, given);
    }
    if let Some(given) = given_for(matches, "forget") {
        return forgetting(alloc, given);
    }
    Ok(Usage::Rehearse)
}

/// What was found for the options of the subcommand of this name, if it was met.
fn given_for<'m, 'a>(matches: &'m ArgMatches<'a>, name: &str) -> Option<&'m ArgMatches<'a>>
    ensures met { IfSome result
        (λ given. subcommand_rows_of matches.entry.now ≡ Some (name.now, rows_of (found_of given.now))) }
    ensures other { IfNone result (option_map (λ p. p.0) (subcommand_rows_of matches.entry.now) ≢ Some name.now) }
{
    matches.subcommand_matches(name)
}

/// What the options of `verify` ask for.
fn verification(alloc: Global, given: &ArgMatches) -> Result<Usage, AllocError>
    requires { AreStartRows (rows_of (found_of given.now)) }
    ensures command { IfOk result (IsCommand (Some (codes "verify", rows_of (found_of given.now)))) }
    ensures lines { IfOk result HasWholeLines }
{
    match start_of(alloc, given)? {
        Ok(start) => Ok(Usage::Verify(start)),
        Err(fault) => wrong(alloc, fault),
    }
}

/// What the options of `plan-reshard` ask for.
fn resharding(alloc: Global, given: &ArgMatches) -> Result<Usage, AllocError>
    requires { AreReshardRows (rows_of (found_of given.now)) }
    ensures command { IfOk result (IsCommand (Some (codes "plan-reshard", rows_of (found_of given.now)))) }
    ensures lines { IfOk result HasWholeLines }
{
    match start_of(alloc, given)? {
        Ok(start) => resharding_from(alloc, given, start),
        Err(fault) => wrong(alloc, fault),
    }
}

/// What the options of `plan-reshard` ask for, with this start.
fn resharding_from(alloc: Global, given: &ArgMatches, start: Start) -> Result<Usage, AllocError>
    requires rows { AreReshardRows (rows_of (found_of given.now)) }
    requires start { HasStart (rows_of (found_of given.now)) start }
    requires range { IsStart start }
    ensures command { IfOk result (IsCommand (Some (codes "plan-reshard", rows_of (found_of given.now)))) }
    ensures lines { IfOk result HasWholeLines }
{
    match reshard_words(alloc, given, start)? {
        Ok(words) => Ok(Usage::Reshard(words)),
        Err(fault) => wrong(alloc, fault),
    }
}

/// What the options of `plan-rebalance` ask for.
fn rebalancing(alloc: Global, given: &ArgMatches) -> Result<Usage, AllocError>
    requires { AreRebalanceRows (rows_of (found_of given.now)) }
    ensures command { IfOk result (IsCommand (Some (codes "plan-rebalance", rows_of (found_of given.now)))) }
    ensures lines { IfOk result HasWholeLines }
{
    match start_of(alloc, given)? {
        Ok(start) => Ok(Usage::Rebalance(rebalance_words(alloc, given, start)?)),
        Err(fault) => wrong(alloc, fault),
    }
}

/// What the options of `plan-drain` ask for.
fn draining(alloc: Global, given: &ArgMatches) -> Result<Usage, AllocError>
    requires { AreDrainRows (rows_of (found_of given.now)) }
    ensures command { IfOk result (IsCommand (Some (codes "plan-drain", rows_of (found_of given.now)))) }
    ensures lines { IfOk result HasWholeLines }
{
    match start_of(alloc, given)? {
        Ok(start) => Ok(Usage::Drain(drain_words(alloc, given, start)?)),
        Err(fault) => wrong(alloc, fault),
    }
}

/// What the words of `forget` ask for.
fn forgetting(alloc: Global, given: &ArgMatches) -> Result<Usage, AllocError>
    requires { AreForgetRows (rows_of (found_of given.now)) }
    ensures command { IfOk result (IsCommand (Some (codes "forget", rows_of (found_of given.now)))) }
    ensures lines { IfOk result HasWholeLines }
{
    match forget_words(alloc, given)? {
        Ok(words) => Ok(Usage::Forget(words)),
        Err(fault) => wrong(alloc, fault),
    }
}

/// What the options of `serve` ask for.
fn service(alloc: Global, given: &ArgMatches) -> Result<Usage, AllocError>
    requires { AreServeRows (rows_of (found_of given.now)) }
    ensures command { IfOk result (IsCommand (Some (codes "serve", rows_of (found_of given.now)))) }
    ensures lines { IfOk result HasWholeLines }
{
    let words = serve_words(given);
    let sizes = words.sizes;
    if sizes.owning <= sizes.nodes {
        Ok(Usage::Serve(words))
    } else {
        wrong(alloc, OptionFault::Uneven(sizes))
    }
}

/// What the options of `survey` ask for.
fn surveying(alloc: Global, given: &ArgMatches) -> Result<Usage, AllocError>
    requires { AreSurveyRows (rows_of (found_of given.now)) }
    ensures command { IfOk result (IsCommand (Some (codes "survey", rows_of (found_of given.now)))) }
    ensures lines { IfOk result HasWholeLines }
{
    match survey_words(alloc, given)? {
        Ok(words) => Ok(Usage::Survey(words)),
        Err(fault) => wrong(alloc, fault),
    }
}

/// What the options of `apply` ask for.
fn applying(alloc: Global, given: &ArgMatches) -> Result<Usage, AllocError>
    requires { AreApplyRows (rows_of (found_of given.now)) }
    ensures command { IfOk result (IsCommand (Some (codes "apply", rows_of (found_of given.now)))) }
    ensures lines { IfOk result HasWholeLines }
{
    match apply_words(alloc, given)? {
        Ok(words) => Ok(Usage::Apply(words)),
        Err(fault) => wrong(alloc, fault),
    }
}

/// What the options of `resume` ask for.
fn resuming(alloc: Global, given: &ArgMatches) -> Result<Usage, AllocError>
    requires { AreResumeRows (rows_of (found_of given.now)) }
    ensures command { IfOk result (IsCommand (Some (codes "resume", rows_of (found_of given.now)))) }
    ensures lines { IfOk result HasWholeLines }
{
    match apply_words(alloc, given)? {
        Ok(run) => Ok(Usage::Resume(resume_words(alloc, given, run)?)),
        Err(fault) => wrong(alloc, fault),
    }
}

/// What the options of `explain` ask for.
fn explaining(alloc: Global, given: &ArgMatches) -> Result<Usage, AllocError>
    requires { AreExplainRows (rows_of (found_of given.now)) }
    ensures command { IfOk result (IsCommand (Some (codes "explain", rows_of (found_of given.now)))) }
    ensures lines { IfOk result HasWholeLines }
{
    let json = flag_in(given, "json");
    match start_of(alloc, given)? {
        Ok(start) => Ok(Usage::Explain(ExplainWords { start, json })),
        Err(fault) => wrong(alloc, fault),
    }
}

/// What the options of `draw` ask for.
fn drawing(alloc: Global, given: &ArgMatches) -> Result<Usage, AllocError>
    requires { AreDrawRows (rows_of (found_of given.now)) }
    ensures command { IfOk result (IsCommand (Some (codes "draw", rows_of (found_of given.now)))) }
    ensures lines { IfOk result HasWholeLines }
{
    match start_of(alloc, given)? {
        Ok(start) => drawing_from(alloc, given, start),
        Err(fault) => wrong(alloc, fault),
    }
}

/// What the options of `draw` ask for, with this start.
fn drawing_from(alloc: Global, given: &ArgMatches, start: Start) -> Result<Usage, AllocError>
    requires rows { AreDrawRows (rows_of (found_of given.now)) }
    requires start { HasStart (rows_of (found_of given.now)) start }
    requires range { IsStart start }
    ensures command { IfOk result (IsCommand (Some (codes "draw", rows_of (found_of given.now)))) }
    ensures lines { IfOk result HasWholeLines }
{
    if !flag_in(given, "now") {
        return Ok(Usage::Draw(start));
    }
    match start {
        Start::Cluster(cluster) => Ok(Usage::DrawNow(cluster)),
        Start::Even(_) => wrong(alloc, OptionFault::NowAlone),
        Start::Survey(_) => wrong(alloc, OptionFault::NowAlone),
    }
}

/// The options do not go together.
fn wrong(alloc: Global, fault: OptionFault) -> Result<Usage, AllocError>
    ensures { IfOk result (IsFaultLine fault) }
{
    Ok(Usage::Wrong(fault_line(alloc, fault)?))
}

/// Which options of the words say where a plan starts.
fn start_kind(words: &[String]) -> StartKind
    ensures { result ≡ start_kind (texts words.now) }
{
    if names_cluster(words) {
        StartKind::Cluster
    } else if names_survey(words) {
        StartKind::Survey
    } else {
        StartKind::Even
    }
}

/// Whether the words name servers of a cluster.
fn names_cluster(words: &[String]) -> bool
    ensures { result ≡ names_cluster (texts words.now) }
{
    for word in words {
        if is_cluster_word(word.as_bytes()) {
            return true;
        }
    }
    false
}

/// Whether the words name the file of a survey.
fn names_survey(words: &[String]) -> bool
    ensures { result ≡ names_survey (texts words.now) }
{
    for word in words {
        if is_survey_word(word.as_bytes()) {
            return true;
        }
    }
    false
}

/// `--survey` by itself, or with its value in the same word.
pub(crate) fn is_survey_word(word: &[u8]) -> bool
    ensures { result ≡ is_survey_word word.now }
{
    word == b"--survey".as_slice() || word.starts_with(b"--survey=".as_slice())
}

/// `--cluster` by itself, or with its value in the same word.
pub(crate) fn is_cluster_word(word: &[u8]) -> bool
    ensures { result ≡ is_cluster_word word.now }
{
    word == b"--cluster".as_slice() || word.starts_with(b"--cluster=".as_slice())
}

/// The words after the program's name, where the parser looks for them.
fn given<'a>(alloc: Global, words: &'a [String]) -> Result<Vec<&'a str>, AllocError>
    ensures { IfOk result (λ given. map (λ word. word.now) given.items ≡ codes "reshard" ∷ texts words.entry.now) }
{
    let mut given = Vec::new(alloc);
    given.push("reshard")?;
    for word in words {
        given.push(word.as_str())?;
    }
    Ok(given)
}

/// The command line that the program has, where a plan starts from what options of this kind say.
fn command<'a>(alloc: Global, kind: StartKind) -> Result<Command<'a>, AllocError>
    ensures { IfOk result (λ command. app_of command ≡ reshard kind) }
{
    let program = top_command(alloc).subcommand(rehearse_command(alloc))?;
    let program = with_command(program, verify_command(alloc, kind))?;
    let program = with_command(program, plan_reshard_command(alloc, kind))?;
    let program = with_command(program, plan_rebalance_command(alloc, kind))?;
    let program = with_command(program, serve_command(alloc))?;
    let program = with_command(program, survey_command(alloc))?;
    let program = with_command(program, apply_command(alloc))?;
    let program = with_command(program, resume_command(alloc))?;
    let program = with_command(program, explain_command(alloc, kind))?;
    let program = with_command(program, draw_command(alloc, kind))?;
    let program = with_command(program, plan_drain_command(alloc, kind))?;
    with_command(program, forget_command(alloc))
}

/// The program with one command more, where there was memory to make that.
fn with_command<'a>(
    program: Command<'a>,
    made: Result<Command<'a>, AllocError>,
) -> Result<Command<'a>, AllocError>
    requires local { IfOk made (λ command. (fields_of command).has_globals ≡ false) }
    ensures { IfOk result (λ more. IsOkAnd made.entry
        (λ command. app_of more ≡ with_subcommand (app_of program.entry) (shape_of command))) }
{
    program.subcommand(made?)
}

/// The program without its commands.
fn top_command<'a>(alloc: Global) -> Command<'a>
    ensures { app_of result ≡ top }
{
    Command::new(alloc, "reshard")
        .version(VERSION)
        .propagate_version(true)
        .about("Live resharding of Redis Cluster with verified plans")
        .subcommand_required(true)
        .arg_required_else_help(true)
}

/// The command that plays a script.
fn rehearse_command<'a>(alloc: Global) -> Command<'a>
    ensures shape { shape_of result ≡ new_shape (codes "rehearse") }
    ensures local { (fields_of result).has_globals ≡ false }
{
    Command::new(alloc, "rehearse")
        .about("Plays a script on standard input")
        .after_help(SCRIPT_LINES)
}

/// The command that verifies a plan.
fn verify_command<'a>(alloc: Global, kind: StartKind) -> Result<Command<'a>, AllocError>
    ensures shape { IfOk result (λ command. shape_of command ≡ verify kind) }
    ensures local { IfOk result (λ command. (fields_of command).has_globals ≡ false) }
{
    let options = vec![in alloc;
        nodes_option(alloc, kind.is_even()),
        even_option(alloc),
        cluster_option(alloc, kind.is_cluster(), START_HELP),
        expect_option(alloc),
        survey_option(alloc, kind.is_survey()),
    ]?;
    let command = Command::new(alloc, "verify")
        .about("Verifies a plan on standard input")
        .after_help(PLAN_LINES);
    with_options(command, options)
}

/// The command that plans so many slots to a node.
fn plan_reshard_command<'a>(alloc: Global, kind: StartKind) -> Result<Command<'a>, AllocError>
    ensures shape { IfOk result (λ command. shape_of command ≡ plan_reshard kind) }
    ensures local { IfOk result (λ command. (fields_of command).has_globals ≡ false) }
{
    let options = vec![in alloc;
        nodes_option(alloc, kind.is_even()),
        even_option(alloc),
        cluster_option(alloc, kind.is_cluster(), START_HELP),
        expect_option(alloc),
        survey_option(alloc, kind.is_survey()),
        from_option(alloc),
        to_option(alloc),
        slots_option(alloc),
        batch_option(alloc),
    ]?;
    let command = Command::new(alloc, "plan-reshard")
        .about("Prints a plan that moves so many slots to a node")
        .after_help(RESHARD_EXAMPLE);
    with_options(command, options)
}

/// The command that plans each node's share by its weight.
fn plan_rebalance_command<'a>(alloc: Global, kind: StartKind) -> Result<Command<'a>, AllocError>
    ensures shape { IfOk result (λ command. shape_of command ≡ plan_rebalance kind) }
    ensures local { IfOk result (λ command. (fields_of command).has_globals ≡ false) }
{
    let options = vec![in alloc;
        nodes_option(alloc, kind.is_even()),
        even_option(alloc),
        cluster_option(alloc, kind.is_cluster(), START_HELP),
        expect_option(alloc),
        survey_option(alloc, kind.is_survey()),
        weights_option(alloc),
        threshold_option(alloc),
        use_empty_flag(alloc),
        batch_option(alloc),
    ]?;
    let command = Command::new(alloc, "plan-rebalance")
        .about("Prints the plan with the fewest moves that gives each node its share by weight")
        .after_help(REBALANCE_EXAMPLE);
    with_options(command, options)
}

/// The command that plans how nodes are drained.
fn plan_drain_command<'a>(alloc: Global, kind: StartKind) -> Result<Command<'a>, AllocError>
    ensures shape { IfOk result (λ command. shape_of command ≡ plan_drain kind) }
    ensures local { IfOk result (λ command. (fields_of command).has_globals ≡ false) }
{
    let options = vec![in alloc;
        nodes_option(alloc, kind.is_even()),
        even_option(alloc),
        cluster_option(alloc, kind.is_cluster(), START_HELP),
        expect_option(alloc),
        survey_option(alloc, kind.is_survey()),
        drained_option(alloc),
        some_to_option(alloc),
        batch_option(alloc),
    ]?;
    let command = Command::new(alloc, "plan-drain")
        .about("Prints a plan that moves all slots of some nodes to others")
        .after_help(DRAIN_EXAMPLE);
    with_options(command, options)
}

/// The command by which a cluster forgets a node.
fn forget_command<'a>(alloc: Global) -> Result<Command<'a>, AllocError>
    ensures shape { IfOk result (λ command. shape_of command ≡ forget) }
    ensures local { IfOk result (λ command. (fields_of command).has_globals ≡ false) }
{
    let options = vec![in alloc;
        node_argument(alloc),
        cluster_option(alloc, true, CLUSTER_HELP),
        expect_option(alloc),
    ]?;
    let command = Command::new(alloc, "forget")
        .about("Lets all other nodes of a cluster of servers forget a master without slots")
        .after_help(FORGET_EXAMPLE);
    with_options(command, options)
}

/// The command that serves a cluster.
fn serve_command<'a>(alloc: Global) -> Result<Command<'a>, AllocError>
    ensures shape { IfOk result (λ command. shape_of command ≡ serve) }
    ensures local { IfOk result (λ command. (fields_of command).has_globals ≡ false) }
{
    let options = vec![in alloc;
        nodes_option(alloc, true),
        even_option(alloc),
        base_port_option(alloc),
        workers_option(alloc),
        connections_option(alloc),
        plan_flag(alloc),
        answers_clients_flag(alloc),
    ]?;
    let command = Command::new(alloc, "serve")
        .about("Serves a cluster on 127.0.0.1 to real clients, with a plan beside them")
        .after_help(SERVE_EXAMPLE);
    with_options(command, options)
}

/// The command that surveys a cluster of servers.
fn survey_command<'a>(alloc: Global) -> Result<Command<'a>, AllocError>
    ensures shape { IfOk result (λ command. shape_of command ≡ survey) }
    ensures local { IfOk result (λ command. (fields_of command).has_globals ≡ false) }
{
    let options = vec![in alloc;
        cluster_option(alloc, true, CLUSTER_HELP),
        expect_option(alloc),
        slots_flag(alloc),
        keys_flag(alloc),
        stranded_flag(alloc),
        full_flag(alloc),
    ]?;
    let command = Command::new(alloc, "survey")
        .about("Prints the nodes of a cluster of servers, and its open slots")
        .after_help(SURVEY_EXAMPLE);
    with_options(command, options)
}

/// The command that runs a plan at a cluster of servers.
fn apply_command<'a>(alloc: Global) -> Result<Command<'a>, AllocError>
    ensures shape { IfOk result (λ command. shape_of command ≡ apply) }
    ensures local { IfOk result (λ command. (fields_of command).has_globals ≡ false) }
{
    let options = vec![in alloc;
        cluster_option(alloc, true, CLUSTER_HELP),
        expect_option(alloc),
        timeout_option(alloc),
        keys_option(alloc),
        log_option(alloc),
        append_flag(alloc),
        overwrite_flag(alloc),
        stop_file_option(alloc),
        wait_for_news_flag(alloc),
        dead_for_good_option(alloc),
        plan_option(alloc, PLAN_HELP),
    ]?;
    let command = Command::new(alloc, "apply")
        .about("Runs a plan at a cluster of servers")
        .after_help(APPLY_EXAMPLE);
    with_options(command, options)
}

/// The command that closes open slots, and continues a plan.
fn resume_command<'a>(alloc: Global) -> Result<Command<'a>, AllocError>
    ensures shape { IfOk result (λ command. shape_of command ≡ resume) }
    ensures local { IfOk result (λ command. (fields_of command).has_globals ≡ false) }
{
    let options = vec![in alloc;
        cluster_option(alloc, true, CLUSTER_HELP),
        expect_option(alloc),
        timeout_option(alloc),
        keys_option(alloc),
        log_option(alloc),
        stop_file_option(alloc),
        wait_for_news_flag(alloc),
        dead_for_good_option(alloc),
        by_option(alloc),
        plan_option(alloc, RESUMED_PLAN_HELP),
    ]?;
    let command = Command::new(alloc, "resume")
        .about("Closes the open slots of a cluster of servers, and continues a plan")
        .after_help(RESUME_EXAMPLE);
    with_options(command, options)
}

/// The command that tells what a plan does.
fn explain_command<'a>(alloc: Global, kind: StartKind) -> Result<Command<'a>, AllocError>
    ensures shape { IfOk result (λ command. shape_of command ≡ explain kind) }
    ensures local { IfOk result (λ command. (fields_of command).has_globals ≡ false) }
{
    let options = vec![in alloc;
        nodes_option(alloc, kind.is_even()),
        even_option(alloc),
        cluster_option(alloc, kind.is_cluster(), START_HELP),
        expect_option(alloc),
        survey_option(alloc, kind.is_survey()),
        json_flag(alloc),
    ]?;
    let command = Command::new(alloc, "explain")
        .about("Tells what a plan on standard input does")
        .after_help(EXPLAIN_EXAMPLE);
    with_options(command, options)
}

/// The command that draws what a plan does.
fn draw_command<'a>(alloc: Global, kind: StartKind) -> Result<Command<'a>, AllocError>
    ensures shape { IfOk result (λ command. shape_of command ≡ draw kind) }
    ensures local { IfOk result (λ command. (fields_of command).has_globals ≡ false) }
{
    let options = vec![in alloc;
        nodes_option(alloc, kind.is_even()),
        even_option(alloc),
        cluster_option(alloc, kind.is_cluster(), START_HELP),
        expect_option(alloc),
        survey_option(alloc, kind.is_survey()),
        now_flag(alloc),
    ]?;
    let command = Command::new(alloc, "draw")
        .about("Draws what a plan on standard input does")
        .after_help(DRAW_EXAMPLE);
    with_options(command, options)
}

/// The command with these options more, in their order.
fn with_options<'a>(command: Command<'a>, options: Vec<Arg<'a>>) -> Result<Command<'a>, AllocError>
    requires local { (fields_of command).has_globals ≡ false }
    requires own { All (λ option. option.global ≡ false) options.items }
    ensures app { IfOk result (λ more. app_of more ≡
        fold with_rule (app_of command.entry) (map rule_of options.entry.items)) }
    ensures local { IfOk result (λ more. (fields_of more).has_globals ≡ false) }
{
    command.args(options)
}

/// What there is to report where the words are no command; out of memory is an error of its own.
fn usage_of(alloc: Global, error: &Error) -> Result<Usage, AllocError>
    ensures memory { kind_of error.now ≡ ErrorKind.OutOfMemory → IsErr result }
    ensures reported { IfOk result (λ usage. ReportsOf (kind_of error.now) usage) }
    ensures lines { IfOk result HasWholeLines }
{
    if error.kind() == ErrorKind::OutOfMemory {
        return Err(AllocError);
    }
    let message = format!(in alloc; "{error}")?;
    let text = with_line_end(message)?;
    if error.use_stderr() {
        Ok(Usage::Wrong(text))
    } else {
        Ok(Usage::Help(text))
    }
}

/// The text with a line feed at its end.
fn with_line_end(text: String) -> Result<String, AllocError>
    ensures { IfOk result (λ whole. EndsLine (string_bytes whole)) }
{
    let mut text = text;
    if !ends_line(text.as_bytes()) {
        text.push('\n')?;
    }
    Ok(text)
}

fn ends_line(text: &[u8]) -> bool
    ensures { IsTrue result → EndsLine text.now }
{
    match text.split_last() {
        Some((last, _)) => *last == b'\n',
        None => false,
    }
}
