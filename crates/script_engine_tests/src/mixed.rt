// Scripts of statements that are drawn at random: two tables of one form of columns, with other dimensions and record indexes, in
// transactions and outside.
use crate::dice::Dice;
use std::alloc::Global;
use std::test::Fail;

const BEGINNING: &[u8] =
    b"CREATE TABLE P (A INTEGER, B CHAR(4), C BIGINT, D DATE, E CHAR(8)) ORGANIZE BY (A);
CREATE TABLE Q (A INTEGER NOT NULL, B CHAR(4), C BIGINT, D DATE, E CHAR(8)) ORGANIZE BY (D, (B, A));
CREATE INDEX I ON P (B DESC, A);
CREATE UNIQUE INDEX U ON P (C DESC, A);
CREATE INDEX J ON Q (D, E DESC);
";

const END: &[u8] = b"SELECT * FROM P;
SELECT * FROM Q;
";

static CONTROLS: [&[u8]; 3] = [b"BEGIN", b"COMMIT WORK", b"ROLLBACK"];

// Definitions, of which most are refused: the tables are mostly there. And free blocks are given back.
static DEFINITIONS: [&[u8]; 12] = [
    b"CREATE TABLE P (A INTEGER, B CHAR(4), C BIGINT, D DATE, E CHAR(8)) ORGANIZE BY (A)",
    b"CREATE TABLE Q (A INTEGER NOT NULL, B CHAR(4), C BIGINT, D DATE, E CHAR(8)) ORGANIZE BY (D, (B, A))",
    b"CREATE TABLE R (A INTEGER, A DATE) ORGANIZE BY (A)",
    b"DROP TABLE Q",
    b"CREATE TABLE Q (A INTEGER, B CHAR(4), C BIGINT, D DATE, E CHAR(8)) ORGANIZE BY (A, B, C, E)",
    b"CREATE UNIQUE INDEX K ON Q (E, B DESC, A, C)",
    b"DROP INDEX I",
    b"CREATE INDEX I ON P (E, C DESC)",
    b"DROP INDEX U",
    b"CREATE UNIQUE INDEX U ON P (A, C DESC)",
    b"REORG TABLE P RECLAIM EXTENTS",
    b"REORG TABLE Q RECLAIM EXTENTS",
];

// How rows are found and how they go, in each plan mode and each rollout mode.
static MODES: [&[u8]; 8] = [
    b"SET PLAN AUTO; SET CURRENT MDC ROLLOUT MODE IMMEDIATE;\n",
    b"SET PLAN BLOCK; SET CURRENT MDC ROLLOUT MODE IMMEDIATE;\n",
    b"SET PLAN RECORD; SET CURRENT MDC ROLLOUT MODE IMMEDIATE;\n",
    b"SET PLAN SCAN; SET CURRENT MDC ROLLOUT MODE IMMEDIATE;\n",
    b"SET PLAN AUTO; SET CURRENT MDC ROLLOUT MODE NONE;\n",
    b"SET PLAN BLOCK; SET CURRENT MDC ROLLOUT MODE NONE;\n",
    b"SET PLAN RECORD; SET CURRENT MDC ROLLOUT MODE NONE;\n",
    b"SET PLAN SCAN; SET CURRENT MDC ROLLOUT MODE NONE;\n",
];

static TABLES: [&[u8]; 2] = [b"P", b"Q"];

static INTEGERS: [&[u8]; 7] = [b"NULL", b"0", b"1", b"2", b"3", b"-7", b"2147483647"];

static SHORT_TEXTS: [&[u8]; 6] = [b"NULL", b"''", b"'a'", b"'it''s'", b"'zz  '", b"'~'"];

static BIG_NUMBERS: [&[u8]; 6] = [
    b"NULL",
    b"7",
    b"-1",
    b"100",
    b"9223372036854775807",
    b"-9223372036854775808",
];

static DATES: [&[u8]; 5] = [
    b"NULL",
    b"'2003-01-31'",
    b"DATE '2004-02-29'",
    b"'0001-01-01'",
    b"'9999-12-31'",
];

static LONG_TEXTS: [&[u8]; 5] = [b"DEFAULT", b"'a'", b"'zz'", b"'abcd'", b"'abcdefgh'"];

static SETS: [&[u8]; 10] = [
    b"C = C + 1",
    b"A = A + 1",
    b"B = 'new'",
    b"B = E",
    b"D = '2003-03-01', A = 2",
    b"A = A * C",
    b"A = NULL, B = NULL",
    b"C = A - C",
    b"E = B, B = E",
    b"D = NULL",
];

static PREDICATES: [&[u8]; 10] = [
    b"",
    b" WHERE A = 1",
    b" WHERE A > 1 AND B < 'm'",
    b" WHERE C IS NULL OR D >= '2003-02-01'",
    b" WHERE NOT (A BETWEEN 1 AND 3)",
    b" WHERE A IN (0, 2, NULL)",
    b" WHERE B <> E",
    b" WHERE A NOT IN (1, 2)",
    b" WHERE D < DATE '2004-02-29' AND NOT C = 7",
    b" WHERE B = 'a' OR (E = 'a' AND A <= C)",
];

static LISTS: [&[u8]; 8] = [
    b"*",
    b"A",
    b"D, B",
    b"C, A, E",
    b"COUNT(*)",
    b"COUNT(B), SUM(A), MIN(D), MAX(E)",
    b"A, COUNT(*), SUM(C)",
    b"E, MIN(C), B, MAX(A)",
];

// What stands behind a predicate. Some go with no list of columns, and are refused.
static TAILS: [&[u8]; 6] = [
    b"",
    b" ORDER BY B, A DESC",
    b" ORDER BY D DESC, B FETCH FIRST 3 ROWS ONLY",
    b" GROUP BY A",
    b" GROUP BY A ORDER BY A DESC FETCH FIRST ROW ONLY",
    b" GROUP BY B, E ORDER BY E DESC",
];

// Appends the pieces of a text.
fn put_all(script: &mut Vec<u8>, pieces: &[&[u8]]) -> Result<(), Fail> {
    for piece in pieces {
        script.extend_from_slice(piece)?;
    }
    Ok(())
}

// The values of a row.
fn put_tuple(script: &mut Vec<u8>, dice: &mut Dice) -> Result<(), Fail> {
    let values = [
        dice.pick(&INTEGERS),
        dice.pick(&SHORT_TEXTS),
        dice.pick(&BIG_NUMBERS),
        dice.pick(&DATES),
        dice.pick(&LONG_TEXTS),
    ];
    put_all(
        script,
        &[
            b"(", values[0], b", ", values[1], b", ", values[2], b", ", values[3], b", ",
            values[4], b")",
        ],
    )
}

// One to three rows.
fn put_insert(script: &mut Vec<u8>, dice: &mut Dice) -> Result<(), Fail> {
    put_all(script, &[b"INSERT INTO ", dice.pick(&TABLES), b" VALUES "])?;
    put_tuple(script, dice)?;
    for _ in 0..dice.roll(3) {
        put_all(script, &[b", "])?;
        put_tuple(script, dice)?;
    }
    Ok(())
}

// A statement: every second time rows come, and else they are changed, deleted or read.
fn put_statement(script: &mut Vec<u8>, dice: &mut Dice) -> Result<(), Fail> {
    match dice.roll(8) {
        0 | 1 | 2 | 3 => put_insert(script, dice)?,
        4 | 5 => {
            let table = dice.pick(&TABLES);
            let sets = dice.pick(&SETS);
            put_all(
                script,
                &[b"UPDATE ", table, b" SET ", sets, dice.pick(&PREDICATES)],
            )?;
        }
        6 => {
            let table = dice.pick(&TABLES);
            put_all(script, &[b"DELETE FROM ", table, dice.pick(&PREDICATES)])?;
        }
        _ => {
            let list = dice.pick(&LISTS);
            let table = dice.pick(&TABLES);
            put_all(
                script,
                &[
                    b"SELECT ",
                    list,
                    b" FROM ",
                    table,
                    dice.pick(&PREDICATES),
                    dice.pick(&TAILS),
                ],
            )?;
        }
    }
    put_all(script, &[b";\n"])
}

/// A script, and of its statements but BEGIN, COMMIT and ROLLBACK those that no ROLLBACK takes back.
#[derive(Debug, Drop)]
pub struct Drawn {
    pub script: Vec<u8>,
    pub kept: Vec<u8>,
    // Those of the transaction that is open, if one is.
    pending: Vec<u8>,
    is_open: bool,
    /// How many ROLLBACKs took statements back.
    pub taken_back: u32,
}

impl Drawn {
    // The script of the statements at the beginning.
    fn new(alloc: Global) -> Result<Drawn, Fail> {
        Ok(Drawn {
            script: Vec::from_slice(alloc, BEGINNING)?,
            kept: Vec::from_slice(alloc, BEGINNING)?,
            pending: Vec::new(alloc),
            is_open: false,
            taken_back: 0,
        })
    }

    // The run begins in one of the modes. What is kept has none of its own.
    fn set(&mut self, modes: usize) -> Result<(), Fail> {
        if let Some(settings) = MODES.get(modes) {
            self.script.extend_from_slice(settings)?;
        }
        Ok(())
    }

    // A statement more, which isn't one of BEGIN, COMMIT and ROLLBACK.
    fn add(&mut self, statement: &[u8]) -> Result<(), Fail> {
        self.script.extend_from_slice(statement)?;
        if self.is_open {
            self.pending.extend_from_slice(statement)?;
        } else {
            self.kept.extend_from_slice(statement)?;
        }
        Ok(())
    }

    // A BEGIN, COMMIT or ROLLBACK more, as it is drawn. It is refused where the transaction isn't in its state.
    fn add_control(&mut self, control: &[u8]) -> Result<(), Fail> {
        put_all(&mut self.script, &[control, b";\n"])?;
        match control {
            b"BEGIN" => self.is_open = true,
            b"ROLLBACK" => self.roll_back(),
            _ => self.commit()?,
        }
        Ok(())
    }

    // The transaction, if one is open, is kept.
    fn commit(&mut self) -> Result<(), Fail> {
        self.kept.extend_from_slice(self.pending.as_slice())?;
        self.pending.clear();
        self.is_open = false;
        Ok(())
    }

    // The transaction, if one is open, is gone.
    fn roll_back(&mut self) {
        if self.pending.len() > 0 {
            self.taken_back = self.taken_back.saturating_add(1);
        }
        self.pending.clear();
        self.is_open = false;
    }
}

// One more: every fifth time a BEGIN, COMMIT or ROLLBACK, and every tenth a definition.
fn draw(alloc: Global, dice: &mut Dice, drawn: &mut Drawn) -> Result<(), Fail> {
    let kind = dice.roll(10);
    if kind < 2 {
        return drawn.add_control(dice.pick(&CONTROLS));
    }
    let mut statement = Vec::new(alloc);
    if kind == 2 {
        put_all(&mut statement, &[dice.pick(&DEFINITIONS), b";\n"])?;
    } else {
        put_statement(&mut statement, dice)?;
    }
    drawn.add(statement.as_slice())
}

/// A script of so many statements besides those at the beginning, in one of eight modes, and a COMMIT and two queries at the end.
pub fn script_of(alloc: Global, seed: u64, many: u32, modes: usize) -> Result<Drawn, Fail> {
    let mut dice = Dice { number: seed };
    let mut drawn = Drawn::new(alloc)?;
    drawn.set(modes)?;
    for _ in 0..many {
        draw(alloc, &mut dice, &mut drawn)?;
    }
    drawn.add_control(b"COMMIT")?;
    drawn.add(END)?;
    Ok(drawn)
}
