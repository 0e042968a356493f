//! Bits-back coding: symbols from a mixture of two models cost about as many bits as their information content.
//!
//! Each symbol is drawn from one of two models. A number, called the latent, selects the model. The latent isn't part
//! of the message, so the sender may choose it. But encoding the latent costs one bit for each symbol. Bits-back coding
//! gets most of that bit back. The sender chooses the latent by decoding it from words that the coder already holds,
//! which takes bits off the coder. Then the sender encodes the symbol and the latent. The receiver decodes both, and
//! encodes the latent with the table with which the sender decoded it. This restores the bits that the sender took off.
//!
//! The sender "hides" symbols with the function `hide`, and the receiver "reveals" them with the function `reveal`.

ghost use Rattle.std.specs.Prelude.{◌≡◌, ℕ, List, length, reverse, IfOk, OnOk};
ghost use Rattle.constriction.specs.stack.Ans.{AnsState, IsNormalized};
ghost use Rattle.constriction.specs.stack.Symbols.{Encodes, Decodes};
ghost use Rattle.constriction.specs.Tables.{model_of};

use anyhow::{Context, Result, bail};
use constriction::CoderError;
use constriction::laws::stack::{binary, steps};
use constriction::stream::model::WeightTable;
use constriction::stream::stack::DefaultAnsCoder as Coder;
use constriction::stream::{Decode, Encode};
use std::alloc::Global;

/// The precision of all tables in bits. The weights of a table add up to 4096.
const PRECISION: usize = 12;

/// The type of all tables in this example, for latents and for symbols.
type Table = WeightTable<u32, PRECISION>;

/// The symbols that are sent.
const SYMBOLS: [usize; 12] = [0, 3, 1, 0, 2, 3, 3, 0, 1, 2, 0, 3];

/// The words that the coder holds at first, from an earlier message.
const WORDS: [u32; 4] = [0x0123_4567, 0x89ab_cdef, 0x0bad_cafe, 0x5eed_5eed];

/// The information content of the symbols, in thousandths of a bit.
///
/// Both latents are equally likely. So a symbol's probability is the sum of its weights in the two models, divided by
/// 8192. Each of the eight symbols 0 and 3 has 1608 thousandths of a bit. Each of the other four symbols has 2541.
const MILLIBITS: u64 = 8 * 1608 + 4 * 2541;

/// Makes a table with these weights.
fn new_table(alloc: Global, weights: &[u32]) -> Result<Table> {
    Ok(Table::new(alloc, weights)?)
}

/// Decodes a symbol, or a latent, with a table.
fn take_off(coder: &mut Coder, table: &Table) -> usize
    ensures { Decodes 32 64 (model_of table.now) result coder.old.state coder.new.state }
{
    match coder.decode_symbol(table) {
        Ok(symbol) => symbol,
        Err(CoderError::Frontend(never)) => match never {},
        Err(CoderError::Backend(never)) => match never {},
    }
}

/// Encodes a symbol, or a latent, with a table. Fails if the table has no entry for it, or if there is no memory.
fn put_on(coder: &mut Coder, symbol: usize, table: &Table) -> Result<()>
    ensures { IsNormalized 32 64 coder.old.state
        → OnOk result (Encodes 32 64 (model_of table.now) symbol coder.old.state coder.new.state) }
{
    coder.encode_symbol(&symbol, table)?;
    Ok(())
}

/// Makes a table with each list of weights.
fn new_tables(alloc: Global, lists: &[&[u32]]) -> Result<Vec<Table>> {
    let mut tables = Vec::new(alloc);
    for weights in lists {
        tables.push(new_table(alloc, weights)?)?;
    }
    Ok(tables)
}

/// The tables of the example: the prior of the latents, a model of symbols for each latent, and the posteriors.
#[derive(Drop)]
struct Mixture {
    /// The table of the latents, with equal weights.
    prior: Table,
    /// For each latent, the table of the symbols.
    symbols: Vec<Table>,
    /// For each symbol, the table of the latents given that symbol. The weights follow from Bayes' rule, rounded.
    posteriors: Vec<Table>,
}

impl Mixture {
    ghost use Rattle.constriction.specs.Steps.{Trace};
    ghost use Rattle.constriction_examples.specs.Hiding.{Hides};

    fn new(alloc: Global) -> Result<Mixture> {
        let prior = new_table(alloc, &[2048, 2048])?;
        let symbols = new_tables(alloc, &[&[2560, 1024, 384, 128], &[128, 384, 1024, 2560]])?;
        let posteriors = new_tables(
            alloc,
            &[&[3901, 195], &[2979, 1117], &[1117, 2979], &[195, 3901]],
        )?;
        Ok(Mixture {
            prior,
            symbols,
            posteriors,
        })
    }

    /// Hides a symbol: decodes a latent with the symbol's posterior, encodes the symbol, and encodes the latent.
    ///
    /// The call encodes the symbol with the latent's symbol table, and the latent with the prior. It fails in these
    /// cases:
    ///
    /// - The mixture has no posterior for the symbol, or no symbol table for the latent.
    /// - The latent's symbol table has no entry for the symbol, or the prior has no entry for the latent.
    /// - There is no memory.
    fn hide(&self, coder: &mut Coder, symbol: usize) -> Result<()>
        ensures hides { IsNormalized 32 64 coder.old.state
            → OnOk result (Hides self.now symbol coder.old.state coder.new.state) }
        ensures valid { IsNormalized 32 64 coder.old.state → OnOk result (IsNormalized 32 64 coder.new.state) }
    {
        let posterior = self.posteriors.get(symbol).context("no such symbol")?;
        let latent = take_off(coder, posterior);
        let symbols = self.symbols.get(latent).context("no such latent")?;
        put_on(coder, symbol, symbols)?;
        put_on(coder, latent, &self.prior)?;
        steps::encode_undoes_decode::<usize>();
        Ok(())
    }

    /// Reveals the symbol hidden last, and returns it. Undoes each action of `hide`, in reverse order.
    ///
    /// The call decodes the latent and the symbol, and encodes the latent with the symbol's posterior. It fails in
    /// these cases:
    ///
    /// - The mixture has no symbol table for the latent, or no posterior for the symbol.
    /// - The posterior has no entry for the latent.
    /// - There is no memory.
    fn reveal(&self, coder: &mut Coder) -> Result<usize>
        ensures reveals { (hidden : ℕ) (before : AnsState) → IsNormalized 32 64 before
            → Hides self.now hidden before coder.old.state
            → IfOk result (λ symbol. (symbol ≡ hidden) × (coder.new.state ≡ before)) }
    {
        let latent = take_off(coder, &self.prior);
        let symbols = self.symbols.get(latent).context("no such latent")?;
        let symbol = take_off(coder, symbols);
        let posterior = self.posteriors.get(symbol).context("no such symbol")?;
        put_on(coder, latent, posterior)?;
        steps::decode_undoes_encode::<usize>();
        steps::encode_undoes_decode::<usize>();
        Ok(symbol)
    }

    /// Hides symbols one after the other, in order. Fails at the first symbol for which `hide` fails.
    fn hide_all(&self, coder: &mut Coder, symbols: &[usize]) -> Result<()>
        ensures hides { IsNormalized 32 64 coder.old.state
            → OnOk result (Trace (Hides self.now) symbols.now coder.old.state coder.new.state) }
    {
        for symbol in symbols {
            self.hide(coder, *symbol)?;
        }
        Ok(())
    }

    /// Reveals `count` symbols, and returns them. The symbol that was hidden last is first in the list.
    ///
    /// Fails at the first symbol for which `reveal` fails, or if there is no memory for the list.
    fn reveal_all(&self, alloc: Global, coder: &mut Coder, count: usize) -> Result<Vec<usize>>
        ensures reveals { (hidden : List ℕ) (before : AnsState) → length hidden ≡ count → IsNormalized 32 64 before
            → Trace (Hides self.now) hidden before coder.old.state
            → IfOk result (λ symbols. (symbols.items ≡ reverse hidden) × (coder.new.state ≡ before)) }
    {
        let mut symbols = Vec::new(alloc);
        for _ in 0..count {
            symbols.push(self.reveal(coder)?)?;
        }
        Ok(symbols)
    }
}

/// Returns the number of bits in the words below a coder's head, plus the number of bits below the head's leading 1.
///
/// Fails if the total number of bits in all words of the coder doesn't fit a `usize`.
fn bits_of(coder: &Coder) -> Result<usize> {
    if !coder.sizes_fit() {
        bail!("too many words");
    }
    Ok(coder.num_valid_bits())
}

/// The numbers of bits before and after hiding the symbols, their difference, and the symbols revealed.
#[derive(Drop)]
struct Sent {
    before: usize,
    after: usize,
    cost: usize,
    symbols: Vec<usize>,
}

/// Hides [`SYMBOLS`] on a coder, and reveals them. The symbols returned are in the order of hiding.
///
/// Fails if `bits_of`, hiding or revealing fails, or if the number of bits is lower after hiding than before.
fn send(alloc: Global, mixture: &Mixture, coder: &mut Coder) -> Result<Sent>
    requires { IsNormalized 32 64 coder.old.state }
{
    let before = bits_of(coder)?;
    mixture.hide_all(coder, SYMBOLS.as_slice())?;
    let after = bits_of(coder)?;
    let cost = after.checked_sub(before).context("a cost below zero")?;
    // The symbol hidden last is revealed first.
    let mut symbols = mixture.reveal_all(alloc, coder, SYMBOLS.len())?;
    symbols.reverse();
    prove!(symbols.as_slice() == SYMBOLS.as_slice());
    Ok(Sent {
        before,
        after,
        cost,
        symbols,
    })
}

/// Prints the results of a call of `send`.
///
/// The results are the numbers of bits before and after hiding, the symbols' cost in bits, and the symbols revealed.
/// Also prints the symbols' information content in bits.
fn show(rt: &impl Print, sent: &Sent) -> Result<()> {
    println!(rt; "bits before: {}", sent.before)?;
    println!(rt; "bits with {} symbols: {}", SYMBOLS.len(), sent.after)?;
    println!(rt; "bits that they cost: {}", sent.cost)?;
    let (bits, thousandths) = (MILLIBITS / 1000, MILLIBITS % 1000);
    println!(rt; "bits of information: {bits}.{thousandths:03}")?;
    println!(rt; "symbols: {:?}", sent.symbols)?;
    Ok(())
}

/// Hides and reveals [`SYMBOLS`] on a coder imported from [`WORDS`], and prints the results and the words exported.
///
/// The import and the export are in binary form.
fn send_and_show(rt: &impl Print, alloc: Global, mixture: &Mixture) -> Result<()> {
    let mut coder = Coder::from_binary(WORDS.to_vec(alloc)?)?;
    binary::binary_export_of_import();
    let sent = send(alloc, mixture, &mut coder)?;
    show(rt, &sent)?;
    let words = coder.into_binary().ok().context("no whole words")?;
    println!(rt; "words: {words:?}")?;
    Ok(())
}

/// Encodes twelve symbols with bits-back coding on top of an earlier message's words, and decodes them.
///
/// Prints the symbols' cost in bits, their information content in bits, and the symbols decoded. Also prints the words
/// left, which are the earlier message's words.
pub fn run(rt: &impl Print, alloc: Global) -> Result<()> {
    let mixture = Mixture::new(alloc)?;
    send_and_show(rt, alloc, &mixture)
}
