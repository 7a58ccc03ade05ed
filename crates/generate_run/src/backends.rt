//! SQLite's and Lucene's backends, with the readers of their queries.

use crate::readable::Readable;
use backend_core::Backend;
use lucene_read::LuceneReader;
use lucene_writer::LuceneText;
use sql_read::SqlReader;
use sqlite_writer::Sqlite;

impl Readable for Sqlite {
    type Reader = SqlReader;

    fn reads_back() {
        <Sqlite as Backend>::law();
        sql_read::line_feed_behind();
    }
}

impl Readable for LuceneText {
    type Reader = LuceneReader;

    fn reads_back() {
        <LuceneText as Backend>::law();
        lucene_read::line_feed_behind();
    }
}
