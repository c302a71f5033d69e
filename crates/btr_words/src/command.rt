/// What a run is to do.
#[derive(Clone, Copy, PartialEq, Eq)]
pub enum Command {
    /// `format --blocks N`: make an empty store of N blocks of 4096 bytes, from 8 to 4,294,967,296.
    Format {
        blocks: u64,
    },

    /// `load [--workers K] [--batch B]`: put the rows of the input into the store, K workers at once, from 1 to 16, in batches
    /// of B points of one stream, from 1 to 65,536.
    Load {
        workers: u8,
        batch: u32,
    },

    /// `ask [--cold]`: answer the questions of the input from the store. `--cold`: the store is sealed, and no node of it is held in
    /// memory.
    Ask {
        cold: bool,
    },

    /// `distil [--workers K]`: bring each output of the store up to date once, K workers at once, from 1 to 16.
    Distil {
        workers: u8,
    },

    /// `live [--materialize] [--batch B]`: run the lines of the input on the store, and commit a feed when it has B points, from
    /// 1 to 65,536. `--materialize`: bring outputs up to date beside the lines, and once more at the end.
    Live {
        batch: u32,
        materialize: bool,
    },

    /// `live --group B [--materialize]`: run the lines of the input on the store, with a shared buffer for each stream, and commit a
    /// batch when it has B points, from 1 to 65,536. `--materialize`: as for `live`. There is no `--batch` beside `--group`.
    LiveGroups {
        threshold: u32,
        materialize: bool,
    },

    /// `sample NUMBER STREAMS POINTS`: write the rows of a sample with this number, from 0 to 2,147,483,647, of
    /// 1 to 1000 streams, each of 1 to 1,000,000 points. There are at most 1,000,000 points in all.
    Sample {
        number: u32,
        streams: u32,
        points: u32,
    },

    /// `checkpoint`: write a checkpoint, which has all streams with their versions, to the store, and a superblock that names it.
    Checkpoint,

    /// `seal`: write a checkpoint, as `checkpoint`, and a superblock that names it and seals the store, which takes no more entries.
    Seal,

    /// `check`: read the whole store, and say whether it is right.
    Check,

    /// `ship FROM`: write the frames of the store's entries with number at least FROM, from 1 to 18,446,744,073,709,551,615.
    Ship {
        from: u64,
    },

    /// `hear`: put the entries of the frames of the input into the store, each in its place.
    Hear,

    /// `serve [--batch B]`: run the lines of the input on the store, each before the next is read, and commit a feed when it has B points,
    /// from 1 to 65,536.
    Serve {
        batch: u32,
    },

    /// `serve --read`: answer the questions of the input from the store, each before the next is read. There is no `--batch` beside
    /// `--read`.
    ServeRead,
}
