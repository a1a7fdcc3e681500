//! Laws of the log and of write batches, each the contract of a function that does nothing.
ghost use Rattle.leveldb_mem.specs.Laws.{OneLogReading, EachIsLog, CutReads, FirstRecords};
ghost use Rattle.leveldb_mem.specs.Laws.{BreaksBad, BreaksOnce, RecordFramed, RecordsFramed};
ghost use Rattle.leveldb_mem.specs.Laws.{OneRecordFraming, OneFraming, FramingReads, LogsAppend};
ghost use Rattle.leveldb_mem.specs.Laws.{FramingsAppend, CutIsHonest, CrashLeaves, LogLaws};
ghost use Rattle.leveldb_mem.specs.Laws.{OneBatchReading, OneBatchEncoding, EachShort, CountFits};

/// What bytes hold as a log is determined: any bytes read as some records and an end, and no
/// others. So two readers that keep to the format agree, and a store can't choose what it recovers.
pub fn bytes_are_one_log()
    ensures each { EachIsLog }
    ensures one { OneLogReading }
{}

/// A log that was cut loses records from its end alone, and none that is whole before the cut.
pub fn cut_log_keeps_first_records()
    ensures cut { CutReads }
    ensures front { FirstRecords }
{}

/// A wrong checksum ends a log badly, in whatever fragment of a record it is and whatever follows.
/// From an offset on, bytes break off so in one fragment at most.
pub fn wrong_checksum_ends_log()
    ensures bad { BreaksBad }
    ensures once { BreaksOnce }
{}

/// There is one way to write records, which a function gives, and it reads as these records.
pub fn records_have_one_framing()
    ensures record { RecordFramed }
    ensures records { RecordsFramed }
    ensures one_record { OneRecordFraming }
    ensures one { OneFraming }
    ensures reads { FramingReads }
{}

/// A log that ends cleanly can be appended to: it holds its records, and then the new ones.
pub fn clean_log_goes_on()
    ensures logs { LogsAppend }
    ensures framings { FramingsAppend }
{}

/// Of a log that is clean, or would be with bytes that a failed append left out, an honest crash
/// leaves the first of its records, and all those of the kept bytes. A crash that only cuts bytes
/// off is honest.
pub fn crash_keeps_first_records()
    ensures cut { CutIsHonest }
    ensures kept { CrashLeaves }
{}

/// What a store's theorem on crashes takes of the files of its log and its manifest.
pub fn log_files_keep_laws()
    ensures { LogLaws }
{}

/// Bytes are a batch in one way, and a batch has one encoding: encoded again at its own number,
/// what was read is the bytes that were read.
pub fn batches_are_their_bytes()
    ensures reading { OneBatchReading }
    ensures encoding { OneBatchEncoding }
{}

/// The limit of a batch's bytes limits each key and each value, and how many changes there are.
pub fn batches_are_limited()
    ensures texts { EachShort }
    ensures count { CountFits }
{}
