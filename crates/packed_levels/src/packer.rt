// The packer of a texture's blocks.
ghost use Rattle.std.specs.Prelude.{◌≡◌, ◌<◌, false, IsTrue, OnOk};
ghost use Rattle.astc_model.specs.Footprints.{is_footprint};
ghost use Rattle.adviser_pool.specs.Pools.{states};
ghost use Rattle.packed_levels.specs.Settling.{IsSettled};
ghost use Rattle.packed_levels.specs.RowSources.{row_sources};
ghost use Rattle.packed_levels.specs.Serving.{Keeps, Serves, Settles};

use crate::options::PackOptions;
use adviser_pool::{Adviser, Pool, ask_of};
use astc_model::Source;
use encoder::{Encoder, FitScratch, SearchView, Settings};
use images::{Images, source_at};
use std::alloc::AllocError;
use std::marker::Model;
use texture::BlockRow;

/// Settles the blocks of a texture with its options. A packer settles any number of rows, in any
/// order. In contracts, a packer is its options.
#[derive(Drop)]
pub struct Packer<'a, const W: usize, const H: usize> {
    encoder: Encoder<'a, W, H>,
    options: PackOptions,
}

impl<'a, const W: usize, const H: usize> Model for Packer<'a, W, H> {
    ghost use Rattle.packed_levels.specs.declared.options.PackOptions.{PackOptions};
    ghost use Rattle.packed_levels.specs.Packers.{IsPacker};

    ghost Value = { PackOptions };

    ghost view = { λ p. p.options };

    ghost invariant = { λ p. IsPacker W H p.options p.encoder };
}

impl<'a, const W: usize, const H: usize> Packer<'a, W, H> {
    /// A packer with these options, over tables of their preset.
    pub fn new(options: &PackOptions, tables: SearchView<'a, W, H>) -> Self
        requires { IsTrue (is_footprint W H) }
        ensures { result ≡ options.now }
    {
        Packer {
            encoder: Encoder::new(options.settings, tables),
            options: *options,
        }
    }

    // Settles a block for a source. The pool is queried first, its blocks are the proposals, and
    // the settled block is reported to it.
    fn settle_advised(
        &self,
        source: &Source<W, H>,
        pool: &mut Pool,
        scratch: &mut FitScratch,
    ) -> ([u8; 16], u32)
        requires { IsTrue self.now.advised }
        ensures settled { IsSettled (record { w = W; h = H; options = self.now })
            (record { places = source.now; bytes = result.0; error = result.1 }) }
        ensures served { Serves (record { w = W; h = H; options = self.now })
            (states ⟦<dyn Adviser as Adviser>⟧ pool.old)
            (states ⟦<dyn Adviser as Adviser>⟧ pool.new)
            (record { places = source.now; bytes = result.0; error = result.1 }) }
    {
        let Settings {
            preset,
            flavour,
            weights,
            ..
        } = self.options.settings;
        let ask = ask_of(preset, flavour, weights, source);
        let proposals = pool.ask::<W, H>(&ask);
        let (block, error) = self.encoder.settle(source, proposals.as_slice(), scratch);
        pool.settled(&block, error);
        (block, error)
    }

    // Settles a block for a source, with the pool or without it.
    fn settle_place(
        &self,
        source: &Source<W, H>,
        pool: &mut Pool,
        scratch: &mut FitScratch,
    ) -> ([u8; 16], u32)
        ensures settled { IsSettled (record { w = W; h = H; options = self.now })
            (record { places = source.now; bytes = result.0; error = result.1 }) }
        ensures served { IsTrue self.now.advised
            → Serves (record { w = W; h = H; options = self.now })
            (states ⟦<dyn Adviser as Adviser>⟧ pool.old)
            (states ⟦<dyn Adviser as Adviser>⟧ pool.new)
            (record { places = source.now; bytes = result.0; error = result.1 }) }
        ensures same { self.now.advised ≡ false → states ⟦<dyn Adviser as Adviser>⟧ pool.new
            ≡ states ⟦<dyn Adviser as Adviser>⟧ pool.old }
        ensures untouched { self.now.advised ≡ false → pool.new ≡ pool.old }
    {
        if self.options.advised {
            self.settle_advised(source, pool, scratch)
        } else {
            self.encoder.settle(source, &[], scratch)
        }
    }

    /// Settles the blocks of a row of an image, writes them to `bytes`, and appends their errors to
    /// `errors`. If the options call for advisers, the pool is queried before each block, its
    /// blocks are the proposals, and the settled block is reported to it. Otherwise the pool stays
    /// unchanged.
    ///
    /// # Errors
    ///
    /// Out of memory. The pool may then have been queried about the first blocks of the row, whose
    /// errors are in `errors`.
    pub fn fill_row(
        &self,
        images: &Images,
        row: &BlockRow,
        pool: &mut Pool,
        scratch: &mut FitScratch,
        bytes: &mut Vec<u8>,
        errors: &mut Vec<u32>,
    ) -> Result<(), AllocError>
        requires { row.now.image < images.now.count }
        ensures settles { OnOk result (Settles (record { w = W; h = H; options = self.now })
            (row_sources W H images.now row.now.columns row.now.image row.now.row)
            (states ⟦<dyn Adviser as Adviser>⟧ pool.old)
            (states ⟦<dyn Adviser as Adviser>⟧ pool.new) bytes.new.items errors.old.items
            errors.new.items) }
        ensures kept { Keeps (record { w = W; h = H; options = self.now })
            (states ⟦<dyn Adviser as Adviser>⟧ pool.old)
            (states ⟦<dyn Adviser as Adviser>⟧ pool.new) }
        ensures untouched { self.now.advised ≡ false → pool.new ≡ pool.old }
    {
        // opens the invariant, which has the encoder's settings
        let _ = &self.encoder;
        bytes.clear();
        for column in 0..row.columns {
            let source = source_at::<W, H>(images, row.image, column, row.row);
            let (block, error) = self.settle_place(&source, pool, scratch);
            bytes.extend_from_slice(&block)?;
            errors.push(error)?;
        }
        Ok(())
    }
}
