//! Random runs over what is kept of URLs, with what a model answers: tests/vectors/make-kept.py writes them.

/// A step a line.
pub const ROWS: &str = "\
    new 0\n\
    none b?1#y|m -\n\
    none d/e.js?v=2|m 6\n\
    put a#x|1 0\n\
    put d/e.js?v=2|2 114\n\
    ask |0 w\n\
    state 252 0 0 1 0 1 0 2\n\
    none a|m 6\n\
    ask a?1|4 w\n\
    put |3 96\n\
    ask b?1#y|1 w\n\
    ask a?1|0 w\n\
    ask d/e.js|6 w\n\
    none d/e.js|m 0\n\
    ask a#x|1 w\n\
    peek d/e.js?v=2|7 w\n\
    ask d/e.js|4 w\n\
    ask a?1|1 w\n\
    put a?2|4 0\n\
    none d/e.js?v=2|f 6\n\
    put d/e.js|5 500\n\
    put |6 295\n\
    none |f 2\n\
    none a|m 4\n\
    ask a|3 nm\n\
    none a?2|f -\n\
    forget a?2|\n\
    key b|b\n\
    ask d/e.js?v=2|4 w\n\
    state 0 0 0 0 0 10 1 11\n\
    put a?2|7 0\n\
    none d/e.js|m 0\n\
    ask c|5 w\n\
    ask b?1#y|2 w\n\
    forget d/e.js?v=2|\n\
    none |f -\n\
    put d/e.js|8 500\n\
    none a?2|m -\n\
    ask a|2 w\n\
    put b?1#y|9 1\n\
    state 134 131 0 1 1 13 1 15\n\
    new 1\n\
    forget_none\n\
    state 0 0 0 0 0 0 0 0\n\
    ask d/e.js|7 w\n\
    put a?1|1 500\n\
    put a?2|2 185\n\
    ask a?2|0 v2\n\
    ask b|1 w\n\
    peek b|5 w\n\
    ask b?1#y|3 w\n\
    ask d/e.js?v=2|5 w\n\
    key ?|?\n\
    put c|3 0\n\
    forget_none\n\
    forget a#x|\n\
    put b?1#y|4 1\n\
    ask b?1#y|3 v4\n\
    forget_none\n\
    ask |5 w\n\
    peek a?1|1 w\n\
    peek a#x|7 w\n\
    put c|5 202\n\
    ask d/e.js|6 w\n\
    put a?1|6 18446744073709551577\n\
    ask d/e.js|2 w\n\
    ask ?|7 w\n\
    ask b?1#y|2 w\n\
    put a?2|7 52\n\
    forget d/e.js?v=2|\n\
    put a#x|8 1\n\
    none ?|f 0\n\
    peek a|5 w\n\
    key |\n\
    ask d/e.js?v=2|2 w\n\
    peek d/e.js?v=2|0 w\n\
    ask a?2|0 w\n\
    put a?2|9 61\n\
    none d/e.js?v=2|f -\n\
    put d/e.js?v=2|10 0\n\
    ask d/e.js?v=2|7 v10\n\
    none a?1|m 2\n\
    new 129\n\
    ask d/e.js|7 w\n\
    peek a#x|4 w\n\
    put a#x|1 72\n\
    forget a?1|\n\
    ask a#x|4 v1\n\
    put a?2|2 239\n\
    none a#x|f 0\n\
    put |3 500\n\
    put b?1#y|4 72\n\
    ask a|5 w\n\
    none d/e.js|f 6\n\
    state 205 134 0 1 1 3 1 4\n\
    put a#x|5 1\n\
    key b|b\n\
    forget |\n\
    ask d/e.js?v=2|7 w\n\
    put a?1|6 217\n\
    state 348 134 0 1 1 4 1 6\n\
    key |\n\
    put a?1|7 232\n\
    state 363 134 0 1 1 4 1 6\n\
    ask c|4 w\n\
    state 363 134 0 1 1 5 1 6\n\
    put a?2|8 72\n\
    none d/e.js?v=2|m 2\n\
    state 203 138 0 1 1 5 1 8\n\
    put a|9 97\n\
    put d/e.js?v=2|10 500\n\
    ask |7 w\n\
    ask c|4 w\n\
    put a#x|11 71\n\
    state 202 0 0 1 0 7 1 11\n\
    put a?2|12 130\n\
    put c|13 195\n\
    ask d/e.js?v=2|4 w\n\
    forget b|\n\
    forget a?2|\n\
    state 324 0 0 1 0 8 1 13\n\
    put d/e.js?v=2|14 158\n\
    put a#x|15 500\n\
    new 300\n\
    put b|1 46\n\
    put b|2 201\n\
    none a|m -\n\
    ask ?|2 w\n\
    ask ?|6 w\n\
    none d/e.js|m -\n\
    ask d/e.js?v=2|6 nm\n\
    peek d/e.js?v=2|2 nm\n\
    key d/e.js?v=2|d/e.js\n\
    put ?|3 72\n\
    key a?1|a?1\n\
    ask d/e.js?v=2|0 w\n\
    ask |3 w\n\
    ask a|7 w\n\
    ask d/e.js?v=2|1 w\n\
    none a?1|m 2\n\
    put a#x|4 235\n\
    put d/e.js|5 147\n\
    put a|6 72\n\
    put ?|7 0\n\
    none a#x|f 4\n\
    ask d/e.js|7 w\n\
    none d/e.js?v=2|m 4\n\
    forget a|\n\
    state 129 138 0 1 1 8 1 9\n\
    peek c|3 w\n\
    ask a#x|1 w\n\
    state 129 138 0 1 1 9 1 9\n\
    peek a?2|4 w\n\
    ask b?1#y|3 w\n\
    put d/e.js|8 500\n\
    ask c|4 w\n\
    none c|m 2\n\
    ask a|5 w\n\
    state 634 129 0 1 1 12 1 11\n\
    peek a#x|0 w\n\
    none b|f 4\n\
    none ?|f 2\n\
    put a|9 146\n\
    put |10 72\n\
    new 700\n\
    ask a#x|5 w\n\
    key c|c\n\
    peek |6 w\n\
    ask d/e.js?v=2|3 w\n\
    forget a|\n\
    ask a?2|4 w\n\
    put d/e.js?v=2|1 72\n\
    forget b|\n\
    ask a#x|4 w\n\
    put |2 38\n\
    ask a#x|7 w\n\
    state 376 0 0 2 0 5 0 0\n\
    put d/e.js|3 1\n\
    none b?1#y|f 2\n\
    peek ?|3 w\n\
    forget c|\n\
    none d/e.js?v=2|f -\n\
    ask d/e.js|4 v3\n\
    ask b?1#y|2 w\n\
    put d/e.js?v=2|4 196\n\
    forget c|\n\
    put b|5 500\n\
    put ?|6 500\n\
    ask d/e.js|3 w\n\
    put a#x|7 55\n\
    put |8 0\n\
    ask a?2|3 w\n\
    state 314 0 0 2 0 9 1 6\n\
    ask |4 v8\n\
    put c|9 1\n\
    put c|10 5\n\
    state 448 0 0 3 0 10 2 6\n\
    ask b|5 w\n\
    ask a#x|7 v7\n\
    put d/e.js?v=2|11 72\n\
    put a|12 215\n\
    put a?1|13 1\n\
    ask d/e.js|0 w\n\
    ask c|5 w\n\
    ask a#x|0 w\n\
    new 2100\n\
    put d/e.js?v=2|1 159\n\
    forget_none\n\
    put b|2 95\n\
    forget a#x|\n\
    state 521 0 0 2 0 0 0 0\n\
    put a?2|3 1\n\
    ask c|0 w\n\
    forget a?2|\n\
    state 521 0 0 2 0 1 0 0\n\
    put a?2|4 268\n\
    none d/e.js|f 2\n\
    put b?1#y|5 0\n\
    state 1053 134 0 4 1 1 0 0\n\
    none a?1|f 4\n\
    ask a?1|0 nf\n\
    ask a#x|5 w\n\
    none d/e.js|f -\n\
    put |6 207\n\
    put a|7 72\n\
    peek a#x|1 w\n\
    none b?1#y|m 2\n\
    none b?1#y|m -\n\
    forget_none\n\
    ask d/e.js|6 w\n\
    put c|8 72\n\
    none a?2|f 4\n\
    ask b?1#y|1 w\n\
    put c|9 500\n\
    put d/e.js?v=2|10 0\n\
    put b|11 500\n\
    put a?2|12 1\n\
    ask d/e.js?v=2|1 v10\n\
    none b|f 2\n\
    put b|13 1\n\
    peek a?2|4 v12\n\
    none ?|f 2\n\
    ask a#x|3 w\n\
    state 1565 129 0 6 1 7 2 3\n\
    forget_none\n\
    peek a#x|7 w\n\
    new 6000\n\
    put a|1 18446744073709551462\n\
    none a#x|m 4\n\
    ask ?|4 w\n\
    put |2 179\n\
    none a#x|m -\n\
    put a#x|3 104\n\
    forget a|\n\
    ask b?1#y|2 w\n\
    put a?1|4 0\n\
    ask c|1 w\n\
    ask |2 v2\n\
    none a?1|f 4\n\
    forget b|\n\
    ask a|4 w\n\
    forget b?1#y|\n\
    none b?1#y|f 0\n\
    peek a|6 w\n\
    key c|c\n\
    forget_none\n\
    put a?2|5 203\n\
    ask a?1|5 w\n\
    none a?2|m 6\n\
    put a?2|6 72\n\
    state 745 0 262 3 0 6 1 1\n\
    put d/e.js|7 198\n\
    ask a?1|2 w\n\
    ask a#x|6 v3\n\
    put a#x|8 18446744073709551513\n\
    none a?2|m 0\n\
    peek a#x|0 v8\n\
    ask |0 w\n\
    none b?1#y|f 6\n\
    ask |4 w\n\
    forget b|\n\
    forget |\n\
    put d/e.js|9 250\n\
    forget d/e.js|\n\
    key ?|?\n\
    put d/e.js|10 72\n\
    ask a?1|7 w\n\
    new 1000000\n\
    put |1 72\n\
    put d/e.js?v=2|2 193\n\
    put |3 0\n\
    state 459 0 138 2 0 0 0 0\n\
    state 459 0 138 2 0 0 0 0\n\
    put a?2|4 72\n\
    peek a?2|5 v4\n\
    put b|5 245\n\
    ask a#x|4 w\n\
    none a#x|m 0\n\
    ask c|2 w\n\
    peek b|5 v5\n\
    put a?2|6 184\n\
    none d/e.js|f 2\n\
    state 1148 265 400 4 2 2 0 0\n\
    none ?|m 4\n\
    ask a#x|2 w\n\
    key a|a\n\
    ask b|4 v5\n\
    ask ?|5 w\n\
    put a|7 221\n\
    peek c|5 w\n\
    put a?2|8 11\n\
    ask a|0 v7\n\
    ask b|1 v5\n\
    forget d/e.js?v=2|\n\
    put b|9 243\n\
    put a?2|10 76\n\
    put d/e.js|11 72\n\
    state 1263 260 529 5 2 7 3 0\n\
    ask a|5 v7\n\
    ask ?|7 w\n\
    put d/e.js?v=2|12 22\n\
    forget a|\n\
    put a#x|13 6\n\
    put ?|14 18446744073709551460\n\
    key |\n\
    put a?2|15 244\n\
    none d/e.js?v=2|f 4\n\
    put a?1|16 133\n\
    new 18446744073709551615\n\
    put a#x|1 134\n\
    ask a|4 w\n\
    ask |6 w\n\
    none d/e.js?v=2|m -\n\
    put d/e.js?v=2|2 103\n\
    put a?2|3 1\n\
    forget_none\n\
    peek d/e.js?v=2|0 v2\n\
    ask c|3 w\n\
    none b|m 6\n\
    put a?2|4 1\n\
    ask b?1#y|2 nm\n\
    put a|5 21\n\
    put a?1|6 186\n\
    peek a#x|1 v1\n\
    put c|7 0\n\
    key |\n\
    forget_none\n\
    ask a?2|1 v4\n\
    none |f 4\n\
    none b|f -\n\
    ask b?1#y|5 nf\n\
    peek ?|7 w\n\
    ask ?|0 nf\n\
    ask a|6 v5\n\
    forget_none\n\
    ask a|3 v5\n\
    put a?1|8 72\n\
    none a|m 4\n\
    ask a?2|7 v4\n\
    ask d/e.js?v=2|4 v2\n\
    key a?2|a?2\n\
    put a#x|9 41\n\
    ask d/e.js|1 w\n\
    forget b?1#y|\n\
    forget c|\n\
    none |f 2\n\
    none c|m 4\n\
    none a?2|f 6\n\
    ask a?2|7 w\n\
";
